//! What a chart says of its sentence.
ghost use Rattle.std.specs.Prelude.{Some};
ghost use Rattle.steps.specs.Texts.{verdict_name};

use std::fmt;

/// Yes: a derivation yields words that the source admits. No: none does. Full: no room was left to tell. Open: there are items left to process.
#[derive(Clone, Copy, PartialEq, Eq, Debug)]
pub enum Verdict {
    Yes,
    No,
    Full,
    Open,
}

/// The word for the verdict.
impl fmt::Display for Verdict {
    ghost output = { λ x. Some (verdict_name x) };

    fn fmt<W: fmt::Write>(&self, f: &mut fmt::Formatter<W>) -> fmt::Result {
        f.write_str(match self {
            Verdict::Yes => "yes",
            Verdict::No => "no",
            Verdict::Full => "full",
            Verdict::Open => "open",
        })
    }
}
