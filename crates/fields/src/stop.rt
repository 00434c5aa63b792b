//! Why the reading of a field stops.
ghost use Rattle.std.specs.Prelude.{◌≡◌};
ghost use Rattle.fields.specs.declared.stop.Stop.TheVariants.{Broken, OutOfMemory};
ghost use Rattle.format.specs.Judge.{refusal};

use format::fault::{Refusal, Rule};
use std::alloc::{AllocError, AllocFailed};

/// The field breaks a rule, or memory is wanting.
#[derive(Clone, Copy, PartialEq, Eq, Debug)]
pub enum Stop {
    Broken(Refusal),
    OutOfMemory,
}

// Two impls by hand: the library's calls fail with errors of two types, and a derived `From` states nothing of what it makes.
impl From<AllocError> for Stop {
    ghost from_gives = { λ _ r. r ≡ OutOfMemory };

    fn from(_e: AllocError) -> Stop {
        Stop::OutOfMemory
    }
}

impl<T: Drop> From<AllocFailed<T>> for Stop {
    ghost from_gives = { λ _ r. r ≡ OutOfMemory };

    fn from(_e: AllocFailed<T>) -> Stop {
        Stop::OutOfMemory
    }
}

/// The rule is broken, at no node of its own.
impl From<Rule> for Stop {
    ghost from_gives = { λ rule r. r ≡ Broken (refusal rule 0) };

    fn from(rule: Rule) -> Stop {
        Stop::Broken(Refusal { rule, node: 0 })
    }
}

impl From<Refusal> for Stop {
    ghost from_gives = { λ refusal r. r ≡ Broken refusal };

    fn from(refusal: Refusal) -> Stop {
        Stop::Broken(refusal)
    }
}
