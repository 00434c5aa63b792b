//! The parts of a case.
ghost use Rattle.std.specs.Prelude.{◌≡◌, Some};
ghost use Rattle.grammar.specs.declared.read.ReadError.TheVariants.{OutOfMemory};
ghost use Rattle.readcases.specs.declared.case.CaseError.TheVariants.{Unread};
ghost use Rattle.readcases.specs.Cases.{Parted};
ghost use Rattle.readcases.specs.Outcomes.{case_error_text};

use crate::hex::{append, decode};
use grammar::read::ReadError;
use std::alloc::{AllocError, AllocFailed, Global};
use std::error::Error;
use std::fmt;

/// Why a case gives no grammar: its line is not a case, or its bytes were not read.
#[derive(Clone, Copy, PartialEq, Eq, Debug)]
pub enum CaseError {
    Malformed,
    Unread(ReadError),
}

impl fmt::Display for CaseError {
    ghost output = { λ x. Some (case_error_text x) };

    fn fmt<W: fmt::Write>(&self, f: &mut fmt::Formatter<W>) -> fmt::Result {
        match self {
            CaseError::Malformed => f.write_str("malformed"),
            CaseError::Unread(error) => write!(f, "{error}"),
        }
    }
}

impl Error for CaseError {}

impl From<ReadError> for CaseError {
    ghost from_gives = { λ e r. r ≡ Unread e };

    fn from(error: ReadError) -> CaseError {
        Self::Unread(error)
    }
}

// Two impls by hand: the library's calls fail with errors of two types, and a derived `From` states nothing of what it makes.
impl From<AllocError> for CaseError {
    ghost from_gives = { λ _ r. r ≡ Unread OutOfMemory };

    fn from(_e: AllocError) -> CaseError {
        CaseError::Unread(ReadError::OutOfMemory)
    }
}

impl<T: Drop> From<AllocFailed<T>> for CaseError {
    ghost from_gives = { λ _ r. r ≡ Unread OutOfMemory };

    fn from(_e: AllocFailed<T>) -> CaseError {
        CaseError::Unread(ReadError::OutOfMemory)
    }
}

/// The name and the tokens of a case.
pub(crate) fn parts(line: &str) -> (&str, &str)
    ensures { Parted line.now result.0.now result.1.now }
{
    line.split_once(' ').unwrap_or((line, ""))
}

/// How often the part of a token stands, and its digits.
fn repetition(token: &str) -> Result<(u16, &str), CaseError> {
    let Some((times, digits)) = token.split_once('*') else {
        return Ok((1, token));
    };
    let times = times.parse::<u16>().map_err(|_| CaseError::Malformed)?;
    Ok((times, digits))
}

/// The bytes of a case's tokens, one behind the other.
pub(crate) fn bytes(heap: Global, tokens: &str) -> Result<Vec<u8>, CaseError> {
    let mut bytes = Vec::new(heap);
    for token in tokens.split_whitespace() {
        let (times, digits) = repetition(token)?;
        let part = decode(heap, digits.as_bytes())?;
        append(&mut bytes, times, part.as_slice())?;
    }
    Ok(bytes)
}
