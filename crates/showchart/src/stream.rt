//! The parts of the input.
ghost use Rattle.showchart.specs.Streams.{Cut};

use fields::field::next_field;

/// The tag of the field with the words.
const WORDS: u8 = 9;

/// A grammar's bytes, and the body of the field of tag 9 behind them.
#[derive(Clone, Copy)]
pub struct Stream<'a> {
    pub grammar: &'a [u8],
    pub words: &'a [u8],
}

/// The bytes before the first field of tag 9, and the body of that field. None where there is no such field, where a field is cut short before it, and where
/// its body is of odd length.
pub(crate) fn cut(bytes: &[u8]) -> Option<Stream<'_>>
    ensures { Cut bytes.now result }
{
    let mut rest = bytes;
    while let Some(field) = next_field(rest) {
        if field.tag == WORDS {
            if field.body.len() % 2 != 0 {
                return None;
            }
            return Some(Stream {
                grammar: &bytes[0..bytes.len() - rest.len()],
                words: field.body,
            });
        }
        rest = field.rest;
    }
    None
}
