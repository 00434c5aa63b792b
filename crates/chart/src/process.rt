//! Processing items in order.
ghost use Rattle.std.specs.Prelude.{◌≡◌, ◌<◌};
ghost use Rattle.steps.specs.Conclusions.{conclusions};
ghost use Rattle.steps.specs.Runs.{goes_on};
ghost use Rattle.chart.specs.Drawn.{Drawn, contents_of, held_in};
ghost use Rattle.chart.specs.Charts.{working_in};
ghost use Rattle.chart.specs.Works.{Worked};

use crate::chart::Chart;
use crate::singles::Short;
use crate::store::{Premise, Store};
use words::Source;

impl Store<'_> {
    /// Draws all conclusions with the item of this number as a premise and none above it, step by step.
    fn process_item<S: Source>(&mut self, short: &Short<'_, S>, number: usize)
        requires { number < self.old.list.held }
        ensures { Drawn self.old self.new (conclusions (contents_of self.old) (S.meaning short.now.source.now) (held_in self.old) number) }
    {
        let item = self.list.items()[number];
        let last = Premise {
            number,
            item: &item,
        };
        self.scan_leaf(short, last);
        self.predict_node(last);
        self.complete_pairs(last);
        self.predict_adjoined(last);
        self.predict_foot(last);
        self.foot_pairs(last);
        self.adjoin_triples(last);
    }
}

impl Chart<'_> {
    /// Whether an item is left to process, and none was refused.
    pub(crate) fn goes_on(&self) -> bool
        ensures { result ≡ goes_on (working_in self.now) }
    {
        !self.store.full && self.processed < self.store.list.len()
    }

    /// Processes at most `budget` items, in order.
    pub(crate) fn process_items<S: Source>(&mut self, short: &Short<'_, S>, budget: u64)
        ensures work { Worked (contents_of self.old.store) (S.meaning short.now.source.now) self.old.store self.new.store self.old.processed self.new.processed budget }
        ensures last { self.new.last ≡ self.old.last }
    {
        for _ in 0..budget {
            if !self.goes_on() {
                return;
            }
            self.store.process_item(short, self.processed);
            self.processed += 1;
        }
    }
}
