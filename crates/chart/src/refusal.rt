//! What a chart refuses.
ghost use Rattle.std.specs.Prelude.{◌≡◌, Some};
ghost use Rattle.chart.specs.Refusals.{refusal_number, refusal_text};

use std::error::Error;
use std::fmt;

/// Why a call was refused.
#[derive(Clone, Copy, PartialEq, Eq, Debug)]
pub enum Refusal {
    /// The capacity is 0 or above 60,000 (layer chart).
    Capacity = 13,
    /// The source's last position is above 250 (layer chart).
    SourceTooLong = 14,
    /// Work on a full chart.
    Full = 20,
    /// The source's last position is not that of the making.
    OtherSource = 21,
    /// No item with this number is held.
    NoSuchItem = 25,
}

impl Refusal {
    /// The number by which the refusal is reported.
    pub fn number(self) -> u8
        ensures { result ≡ refusal_number self }
    {
        self as u8
    }
}

/// The refusal by its number.
// Written for each type that refuses: a Display for all types with a number cannot be, as the trait is the library's.
impl fmt::Display for Refusal {
    ghost output = { λ x. Some (refusal_text x) };

    fn fmt<W: fmt::Write>(&self, f: &mut fmt::Formatter<W>) -> fmt::Result {
        let number = self.number();
        write!(f, "refused {number}")
    }
}

impl Error for Refusal {}
