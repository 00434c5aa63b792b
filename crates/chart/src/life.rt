//! The life of a chart: judging, making, work, closing, release.
ghost use Rattle.std.specs.Prelude.{◌≡◌, length};
ghost use Rattle.grammar.specs.Grammars.{contents_in};
ghost use Rattle.chart.specs.Charts.{judged, Made, WorkDone};

use crate::chart::{Chart, Closed};
use crate::refusal::Refusal;
use crate::singles::Short;
use crate::store::Store;
use distinct::DistinctList;
use grammar::grammar::Grammar;
use steps::item::{Item, MOST_POSITIONS};
use words::Source;

/// The greatest capacity of a chart.
pub const MOST_ITEMS: usize = 60000;

/// Judges what a chart is to be made of: first the capacity, which is the memory's length, then the source's last position.
pub fn judge<S: Source>(_grammar: &Grammar, memory: &[Item], source: &S) -> Result<(), Refusal>
    ensures { result ≡ judged (length memory.now) (S.meaning source.now).last }
{
    if memory.is_empty() || memory.len() > MOST_ITEMS {
        return Err(Refusal::Capacity);
    }
    if source.last_position() > MOST_POSITIONS {
        return Err(Refusal::SourceTooLong);
    }
    Ok(())
}

impl<'g> Chart<'g> {
    /// A chart over the grammar, with room for as many items as the memory has. What `judge` refuses is made a full chart without items.
    pub fn make<S: Source>(grammar: &'g Grammar, memory: Vec<Item>, source: &S) -> Chart<'g>
        ensures made { Made (contents_in grammar.now) memory.items (S.meaning source.now).last result }
        ensures grammar { result.store.grammar.now ≡ grammar.now }
    {
        let last = source.last_position();
        let refused = judge(grammar, memory.as_slice(), source).is_err();
        let mut store = Store {
            grammar,
            list: DistinctList::new(memory),
            full: refused,
        };
        store.start_trees();
        Chart {
            store,
            processed: 0,
            last,
        }
    }

    /// Processes items in order until the budget is spent or none is left, and answers how many are processed and how many are held, both since the making.
    /// Refused on a full chart, and then where the source's last position is not that of the making; a refusal leaves the chart as it was.
    // A pair and no struct: a rule of the project has work answer two numbers.
    pub fn work<S: Source>(&mut self, budget: u64, source: &S) -> Result<(usize, usize), Refusal>
        ensures work { WorkDone (S.meaning source.now) budget self.old self.new result }
        ensures grammar { self.new.store.grammar.now ≡ self.old.store.grammar.now }
    {
        if self.store.full {
            return Err(Refusal::Full);
        }
        if source.last_position() != self.last {
            return Err(Refusal::OtherSource);
        }
        self.process_items(&Short { source }, budget);
        Ok((self.processed, self.store.list.len()))
    }

    /// Gives the chart up for a closed one, which takes no more work.
    pub fn close(self) -> Closed<'g>
        ensures { result.chart ≡ self.entry }
    {
        Closed { chart: self }
    }
}

impl Closed<'_> {
    /// Hands the memory back: the items held, and past them what stood there before.
    pub fn release(self) -> Vec<Item>
        ensures { result ≡ self.entry.chart.store.list.memory }
    {
        let Closed { chart } = self;
        let Chart {
            store,
            processed: _,
            last: _,
        } = chart;
        let Store {
            grammar: _,
            list,
            full: _,
        } = store;
        list.into_memory()
    }
}
