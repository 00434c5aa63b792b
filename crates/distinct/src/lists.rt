//! Making, filling and asking a distinct list in memory of its own.
ghost use Rattle.std.specs.Prelude.{◌≡◌, ◌&&◌, ◌||◌, is_ok, length, vec_items};
ghost use Rattle.distinct.specs.Adding.{answer, answer_in};
ghost use Rattle.distinct.specs.Runs.{begun, after_offer, has};
ghost use Rattle.distinct.specs.Lists.{listed, records, number_in, held_after, Extends};

use crate::list::DistinctList;
use crate::{Added, NoRoom, Same, add};

impl<R> DistinctList<R> {
    /// An empty list with room for as many records as `memory` has.
    pub fn new(memory: Vec<R>) -> DistinctList<R>
        ensures { listed result ≡ begun memory.items }
    {
        DistinctList { memory, held: 0 }
    }

    /// The held records, in the order in which they were added.
    pub fn items(&self) -> &[R]
        ensures { result.now ≡ records self.now }
    {
        &self.memory[..self.held]
    }

    /// How many records are held.
    pub fn len(&self) -> usize
        ensures counts { result ≡ (listed self.now).count }
        ensures all { result ≡ length (records self.now) }
    {
        self.items().len()
    }

    /// Hands the memory back.
    pub fn into_memory(self) -> Vec<R>
        ensures { result ≡ self.memory }
    {
        let DistinctList { memory, held: _ } = self;
        memory
    }
}

impl<R: Same + Copy> DistinctList<R> {
    /// Adds a record unless one is held that is the same, and answers the number of the held one.
    pub fn add(&mut self, offered: R) -> Result<usize, NoRoom>
        ensures answers { result ≡ number_in (answer R.alike (vec_items self.old.memory) self.old.held offered) }
        ensures tells { result ≡ number_in (answer_in R.alike (length (vec_items self.old.memory)) (records self.old) offered) }
        ensures list { listed self.new ≡ after_offer R.alike (listed self.old) offered }
        ensures holds { records self.new ≡ held_after (answer_in R.alike (length (vec_items self.old.memory)) (records self.old) offered) (records self.old) offered }
        ensures extends { Extends (listed self.old) (listed self.new) }
        ensures gains { (y : R) → has R.alike (records self.new) y ≡ (has R.alike (records self.old) y || (is_ok result && R.alike offered y)) }
    {
        match add(&mut self.memory, self.held, offered)? {
            Added::Held(number) => Ok(number),
            Added::New(number) => {
                self.held += 1;
                Ok(number)
            }
        }
    }
}

impl<R: Same> DistinctList<R> {
    /// Whether a held record is the same as `offered`.
    pub fn contains(&self, offered: &R) -> bool
        ensures { result ≡ has R.alike (records self.now) offered.now }
    {
        self.items().iter().any(|other| other.same(offered))
    }
}
