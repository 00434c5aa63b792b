//! What spelling refuses.
ghost use Rattle.std.specs.Prelude.{◌≡◌};
ghost use Rattle.spelling.specs.Refusals.{refusal_number};

/// Why a certificate was not spelled.
#[derive(Clone, Copy, PartialEq, Eq, Debug)]
pub enum Refusal {
    /// The stack has fewer entries than the buffer has bytes.
    SmallStack = 26,
    /// The chart's verdict is not yes.
    NoYes = 23,
    /// The certificate is longer than the buffer.
    SmallBuffer = 24,
}

impl Refusal {
    /// The number by which the refusal is reported.
    pub fn number(self) -> u8
        ensures { result ≡ refusal_number self }
    {
        self as u8
    }
}
