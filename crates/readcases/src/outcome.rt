//! What the reading of a case answers.
ghost use Rattle.format.specs.Judge.{judge};
ghost use Rattle.std.specs.Prelude.{Some};
ghost use Rattle.readcases.specs.Outcomes.{Answers, outcome_text};

use crate::case;
use crate::case::CaseError;
use grammar::grammar::Grammar;
use std::alloc::Global;
use std::fmt;
use summary::counts::Counts;

/// The answer to a case, shown in one line: how much the grammar has, or why there is none.
#[derive(Clone, Copy)]
pub struct Outcome(pub Result<Counts, CaseError>);

impl fmt::Display for Outcome {
    ghost output = { λ x. Some (outcome_text x.0) };

    fn fmt<W: fmt::Write>(&self, f: &mut fmt::Formatter<W>) -> fmt::Result {
        match self.0 {
            Ok(Counts { trees, nodes, .. }) => write!(f, "ok {trees} {nodes}"),
            Err(error) => write!(f, "{error}"),
        }
    }
}

/// What the reading of a case's bytes answers.
pub(crate) fn of_case(heap: Global, tokens: &str) -> Result<Counts, CaseError> {
    let bytes = case::bytes(heap, tokens)?;
    of_bytes(heap, bytes.as_slice())
}

/// What the reading of the bytes answers.
fn of_bytes(heap: Global, bytes: &[u8]) -> Result<Counts, CaseError>
    ensures { Answers (judge bytes.now) result }
{
    let grammar = Grammar::read(heap, bytes)?;
    Ok(Counts::from(&grammar))
}
