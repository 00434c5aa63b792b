//! The distinct list: records of which no two held ones are the same, in a lent slice or in memory of its own.
#![tactic(auto)]

ghost use Rattle.std.specs.Prelude.{◌≡◌, ◌+◌, Bool, true, take, drop};
ghost use Rattle.distinct.specs.Adding.{first_same, answer, memory_after};
ghost use Rattle.distinct.specs.Runs.{RunsAreLawful};

mod list;
mod lists;

pub use list::DistinctList;

/// A record with a sameness, which is an equivalence.
pub trait Same {
    ghost alike: { Self → Self → Bool };

    /// Whether two records are the same.
    fn same(&self, other: &Self) -> bool
        ensures { result ≡ alike self.now other.now };

    ghost reflexive: { (x : Self) → alike x x ≡ true };

    ghost symmetric: { (x y : Self) → alike x y ≡ true → alike y x ≡ true };

    ghost transitive: { (x y z : Self) → alike x y ≡ true → alike y z ≡ true → alike x z ≡ true };
}

/// The number of a record that a list took.
#[derive(Clone, Copy, PartialEq, Eq, Debug)]
pub enum Added {
    /// The number of the first held record that is the same.
    Held(usize),
    /// The number of the record, which is the new last one.
    New(usize),
}

/// No held record is the same, and there is no room for another.
#[derive(Clone, Copy, PartialEq, Eq, Debug)]
pub struct NoRoom;

/// The number of the first of the `held` records that is the same as `offered`.
pub fn number_of<R: Same>(held: &[R], offered: &R) -> Option<usize>
    ensures { result ≡ first_same R.alike 0 held.now offered.now }
{
    held.iter().position(|other| other.same(offered))
}

/// Adds `offered` to the list whose records are the first `held` of `memory`, unless one of them is the same.
///
/// A list that would hold more records than there is memory has no room, and is left as it is.
// A lent slice is fixed memory: `held` says how much of it holds records.
pub fn add<R: Same + Copy>(memory: &mut [R], held: usize, offered: R) -> Result<Added, NoRoom>
    ensures answers { result ≡ answer R.alike memory.old held offered }
    ensures after { memory.new ≡ memory_after (answer R.alike memory.old held offered) memory.old offered }
    ensures front { take held memory.new ≡ take held memory.old }
    ensures rest { drop (held + 1) memory.new ≡ drop (held + 1) memory.old }
{
    if held > memory.len() {
        return Err(NoRoom);
    }
    if let Some(number) = number_of(&memory[0..held], &offered) {
        return Ok(Added::Held(number));
    }
    if held == memory.len() {
        return Err(NoRoom);
    }
    memory[held] = offered;
    Ok(Added::New(held))
}

/// In a list begun empty and changed only by `add`, each class of records offered while there was room is held by its
/// first member, in the order of those first offers, and by no other.
pub fn runs_are_lawful<R: Same>() -> u8
    ensures { RunsAreLawful R.alike }
{
    0
}

#[cfg(test)]
mod tests;
