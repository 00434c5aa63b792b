//! What every source of words answers.
ghost use Rattle.std.specs.Prelude.{◌≡◌, Bool, true, [], ◌==◌};
ghost use Rattle.words.specs.Meaning.{Meaning, Bounded};
ghost use Rattle.words.specs.Paths.{Admits, EmptyAtZero, PathsSplit, PathsSplitAtWord, PathsJoin};

/// The greatest last position of a row or a lattice.
pub const GREATEST_LAST: u32 = 65535;

/// A source of words. Asking changes nothing, and no question is refused.
pub trait Source {
    ghost meaning: { Self → Meaning };

    // Each edge of a source leads to a later position, up to the last: what each kind of source has to show.
    ghost bounded: { (s : Self) → Bounded (meaning s) };

    /// The last position.
    fn last_position(&self) -> u32
        ensures { result ≡ (meaning self.now).last };

    /// Whether `word` leads from the position `from` to the position `to`.
    // Any numbers may be asked for, so the three are no `Edge`, whose positions are narrower.
    fn has_edge(&self, from: u32, word: u16, to: u32) -> bool
        ensures { result ≡ (meaning self.now).edge from word to };
}

/// Whether a source admits the empty list of words: exactly when its last position is 0.
///
/// Its contract also names what the paths of every source do: they split at each word, and they join.
pub fn admits_empty<S: Source>(source: &S) -> bool
    ensures value { result ≡ ((S.meaning source.now).last == 0) }
    ensures admits { (result ≡ true → Admits (S.meaning source.now) []) × (Admits (S.meaning source.now) [] → result ≡ true) }
    ensures empty { EmptyAtZero }
    ensures splits { PathsSplit }
    ensures splits_at_word { PathsSplitAtWord }
    ensures joins { PathsJoin }
{
    source.last_position() == 0
}
