//! What a source of words refuses.
ghost use Rattle.std.specs.Prelude.{◌≡◌, Some};
ghost use Rattle.words.specs.declared.refusal.Refusal.TheVariants.{ListFull};
ghost use Rattle.words.specs.Refusals.{refusal_number, refusal_text};

use distinct::NoRoom;
use std::error::Error;
use std::fmt;

/// Why a row, an edge, a lattice or a window was refused.
#[derive(Clone, Copy, PartialEq, Eq, Debug)]
pub enum Refusal {
    /// The input breaks the bounds of its source (layer source).
    OutOfBounds = 15,
    /// A new edge finds its list full.
    ListFull = 22,
}

impl Refusal {
    /// The number by which the refusal is reported.
    pub fn number(&self) -> u8
        ensures { result ≡ refusal_number self.now }
    {
        *self as u8
    }
}

/// The refusal by its number.
// Written for each type that refuses: a Display for all types with a number cannot be, as the trait is the library's.
impl fmt::Display for Refusal {
    ghost output = { λ x. Some (refusal_text x) };

    fn fmt<W: fmt::Write>(&self, f: &mut fmt::Formatter<W>) -> fmt::Result {
        let number = self.number();
        write!(f, "refused {number}")
    }
}

impl Error for Refusal {}

impl From<NoRoom> for Refusal {
    ghost from_gives = { λ _ refusal. refusal ≡ ListFull };

    fn from(_: NoRoom) -> Refusal {
        Refusal::ListFull
    }
}
