//! Bytes written in hexadecimal digits.
ghost use Rattle.std.specs.Prelude.{◌≡◌, ◌++◌, OnOk};
ghost use Rattle.readcases.specs.Hex.{digit_of, byte_of, bytes_of, Decodes, copies};

use crate::case::CaseError;
use std::alloc::{AllocError, Global};

/// The number of a hexadecimal digit, with letters of either case.
fn digit(byte: u8) -> Option<u8>
    ensures { result ≡ digit_of byte }
{
    match byte {
        b'0'..=b'9' => Some(byte - b'0'),
        b'A'..=b'F' => Some(byte - b'A' + 10),
        b'a'..=b'f' => Some(byte - b'a' + 10),
        _ => None,
    }
}

/// The byte that two digits give, the high one first.
fn byte(high: u8, low: u8) -> Option<u8>
    ensures { result ≡ byte_of high low }
{
    Some(16 * digit(high)? + digit(low)?)
}

/// The bytes that the digits give, two digits to a byte.
pub(crate) fn decode(heap: Global, digits: &[u8]) -> Result<Vec<u8>, CaseError>
    ensures { Decodes (bytes_of digits.now) (λ v. v.items) result }
{
    let mut bytes = Vec::new(heap);
    let mut rest = digits;
    while let [high, low, more @ ..] = rest {
        let byte = byte(*high, *low).ok_or(CaseError::Malformed)?;
        bytes.push(byte)?;
        rest = more;
    }
    if !rest.is_empty() {
        return Err(CaseError::Malformed);
    }
    Ok(bytes)
}

/// Appends the part so many times.
pub(crate) fn append(bytes: &mut Vec<u8>, times: u16, part: &[u8]) -> Result<(), AllocError>
    ensures { OnOk result (bytes.new.items ≡ bytes.old.items ++ copies times part.now) }
{
    for _ in 0..times {
        bytes.extend_from_slice(part)?;
    }
    Ok(())
}
