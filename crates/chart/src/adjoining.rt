//! Adjoin complete, with the processed item in any of its three places. A place that cannot suit it is not swept.
ghost use Rattle.std.specs.Prelude.{◌<◌};
ghost use Rattle.steps.specs.Conclusions.{adjoin_complete};
ghost use Rattle.chart.specs.Drawn.{Drawn, contents_of, held_in};
ghost use Rattle.chart.specs.Lasts.{pairs_with, thirds_with, triples_with};

use crate::concluding::{begins_after, complete_adjoined, fills_finished, is_whole};
use crate::pairs::Places;
use crate::store::{Premise, Store};

impl Store<'_> {
    /// `first` has to be finished at the top of its tree. Then `last` as the second premise has to be finished between its foot positions, and as the third to be before a node where it begins.
    fn adjoin_below(&mut self, first: Premise<'_>, last: Premise<'_>)
        ensures { Drawn self.old self.new (pairs_with (adjoin_complete (contents_of self.old) first.entry.number first.entry.item.now) (held_in self.old) last.entry) }
    {
        if !is_whole(first.item) {
            return;
        }
        let grammar = self.grammar;
        let places = Places {
            first: fills_finished(grammar, first.item, last.item),
            second: begins_after(grammar, first.item, last.item),
        };
        self.pair(last, places, |y, z| complete_adjoined(grammar, first, y, z));
    }

    /// Each held item up to `first` as the third premise; `second` has to be finished between the foot positions of `first`.
    fn adjoin_thirds(&mut self, first: Premise<'_>, second: Premise<'_>)
        ensures { Drawn self.old self.new (thirds_with (adjoin_complete (contents_of self.old)) (held_in self.old) first.entry second.entry.number second.entry.item.now) }
    {
        let grammar = self.grammar;
        if !fills_finished(grammar, first.item, second.item) {
            return;
        }
        self.sweep(first.number.saturating_add(1), |third| {
            complete_adjoined(grammar, first, second, third)
        });
    }

    /// Adjoin complete with `last` in any place, first with each item below it as the first premise, then as the first premise itself.
    pub(crate) fn adjoin_triples(&mut self, last: Premise<'_>)
        requires { last.number < self.old.list.held }
        ensures { Drawn self.old self.new (triples_with (adjoin_complete (contents_of self.old)) (held_in self.old) last.entry) }
    {
        // Both loops by number: a conclusion that is drawn changes the list, so no iterator can lend its items meanwhile.
        for a in 0..last.number {
            let item = self.list.items()[a];
            self.adjoin_below(
                Premise {
                    number: a,
                    item: &item,
                },
                last,
            );
        }
        if !is_whole(last.item) {
            return;
        }
        for b in 0..last.number + 1 {
            let item = self.list.items()[b];
            self.adjoin_thirds(
                last,
                Premise {
                    number: b,
                    item: &item,
                },
            );
        }
    }
}
