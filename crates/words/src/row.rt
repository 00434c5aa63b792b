//! A row of words, each leading from its index to the next.
ghost use Rattle.std.specs.Prelude.{◌≤◌, length};
ghost use Rattle.words.specs.Meaning.{greatest_last};

/// A row of words. The number 0 is no word, and leads nowhere.
#[derive(Clone, Copy)]
pub struct Row<'a> {
    pub(crate) words: &'a [u16],
    ghost short: { length words.now ≤ greatest_last },
}
