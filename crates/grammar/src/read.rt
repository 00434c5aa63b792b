//! The fields of the bytes one after the other.
ghost use Rattle.std.specs.Prelude.{◌≡◌, Some};
ghost use Rattle.format.specs.Judge.{fault, judge};
ghost use Rattle.grammar.specs.Read.{Reads, error_at, error_text};

use crate::draft::Draft;
use fields::field::next_field;
use fields::stop::Stop;
use format::fault::{Fault, Refusal, Rule};
use format::stage::Phase;
use std::alloc::Global;
use std::error::Error;
use std::fmt;

/// The most bytes that a grammar has.
pub const MOST_BYTES: usize = 16384;

/// Why bytes were not read: they have a fault, or memory is wanting.
#[derive(Clone, Copy, PartialEq, Eq, Debug)]
pub enum ReadError {
    Faulty(Fault),
    OutOfMemory,
}

/// The line of the fault, or that memory is wanting.
impl fmt::Display for ReadError {
    ghost output = { λ x. Some (error_text x) };

    fn fmt<W: fmt::Write>(&self, f: &mut fmt::Formatter<W>) -> fmt::Result {
        match self {
            ReadError::Faulty(fault) => write!(f, "{fault}"),
            ReadError::OutOfMemory => f.write_str("out of memory"),
        }
    }
}

impl Error for ReadError {}

// No From: a rule and a stop become an error only with a place.
impl ReadError {
    /// A rule that is broken at `place`, at no node of its own.
    fn broken(rule: Rule, place: usize) -> ReadError
        ensures { result ≡ ReadError.Faulty (fault rule place 0) }
    {
        ReadError::Faulty(Fault {
            rule,
            place,
            node: 0,
        })
    }

    /// A stop within the field whose tag stands at `place`.
    fn at_place(stop: Stop, place: usize) -> ReadError
        ensures { result ≡ error_at place stop }
    {
        match stop {
            Stop::Broken(Refusal { rule, node }) => ReadError::Faulty(Fault { rule, place, node }),
            Stop::OutOfMemory => ReadError::OutOfMemory,
        }
    }
}

/// What the bytes give, field by field, or their one fault.
pub(crate) fn read_fields(heap: Global, bytes: &[u8]) -> Result<Draft, ReadError>
    ensures { Reads (judge bytes.now) result }
{
    if bytes.len() > MOST_BYTES {
        return Err(ReadError::broken(Rule::Size, MOST_BYTES));
    }
    let mut draft = Draft::new(heap);
    let mut rest = bytes;
    while !rest.is_empty() {
        let place = bytes.len() - rest.len();
        let field = next_field(rest).ok_or(ReadError::broken(Rule::Cut, place))?;
        draft
            .field(heap, field.tag, field.body)
            .map_err(|stop| ReadError::at_place(stop, place))?;
        rest = field.rest;
    }
    if draft.phase == Phase::Start {
        return Err(ReadError::broken(Rule::Order, bytes.len()));
    }
    if !draft.table.some_initial() {
        return Err(ReadError::broken(Rule::NoInitial, bytes.len()));
    }
    Ok(draft)
}
