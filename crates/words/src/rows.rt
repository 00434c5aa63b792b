//! Judging, making and asking a row of words.
ghost use Rattle.std.specs.Prelude.{◌≡◌};
ghost use Rattle.words.specs.Rows.{judged_row, row_meaning, row_of, AdmitsItsWords};
ghost use Rattle.words.specs.Bounds.{row_bounded};

use crate::refusal::Refusal;
use crate::row::Row;
use crate::source::{GREATEST_LAST, Source};

/// Judges whether `words` make a row: there are at most 65,535.
pub fn judge_row(words: &[u16]) -> Result<(), Refusal>
    ensures { result ≡ judged_row words.now }
{
    if words.len() > GREATEST_LAST as usize {
        return Err(Refusal::OutOfBounds);
    }
    Ok(())
}

impl<'a> Row<'a> {
    /// The row over `words`, or an empty row where `judge_row` refuses them.
    pub fn new(words: &'a [u16]) -> Row<'a>
        ensures means { row_of result.words.now ≡ row_meaning words.now }
        ensures admits { AdmitsItsWords words.now }
    {
        if judge_row(words).is_err() {
            return Row { words: &[] };
        }
        Row { words }
    }
}

impl Source for Row<'_> {
    ghost meaning = { λ s. row_of s.words.now };

    ghost bounded = { λ s. row_bounded s.words.now };

    fn last_position(&self) -> u32 {
        self.words.len() as u32
    }

    fn has_edge(&self, from: u32, word: u16, to: u32) -> bool {
        word != 0 && self.words.get(from as usize) == Some(&word) && to == from + 1
    }
}
