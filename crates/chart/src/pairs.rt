//! The steps with two premises, with the processed item in either place. A place that cannot suit it is not swept.
ghost use Rattle.std.specs.Prelude.{◌≡◌, ℕ, false, None};
ghost use Rattle.steps.specs.declared.item.Item.{Item};
ghost use Rattle.steps.specs.Orders.{PairStep};
ghost use Rattle.steps.specs.Conclusions.{complete, foot_complete};
ghost use Rattle.chart.specs.Drawn.{Drawn, contents_of, held_in};
ghost use Rattle.chart.specs.Lasts.{of_two, pairs_with};

use crate::asking::{finished, site, starts_foot};
use crate::concluding::{complete_foot, complete_node};
use crate::store::{Premise, Store};
use steps::item::Item;

/// In which places of a step with two premises an item may stand.
// Two flags: an item may stand in either, both or neither, and no value goes with an answer.
#[derive(Clone, Copy)]
pub(crate) struct Places {
    pub(crate) first: bool,
    pub(crate) second: bool,
}

impl Store<'_> {
    /// The step with `last` in the places where it may stand, and in the other place each held item up to it.
    pub(crate) fn pair<F: Fn(Premise<'_>, Premise<'_>) -> Option<Item>>(
        &mut self,
        last: Premise<'_>,
        places: Places,
        step: F,
    )
        requires { F.IsAlwaysCallable step }
        ensures { (f : PairStep) → ((p q : _) (r : _) → F.post step p q r → r ≡ of_two f p q)
            → (places.first ≡ false → (k : ℕ) (x : Item) → f last.entry.number last.entry.item.now k x ≡ None)
            → (places.second ≡ false → (k : ℕ) (x : Item) → f k x last.entry.number last.entry.item.now ≡ None)
            → Drawn self.old self.new (pairs_with f (held_in self.old) last.entry) }
    {
        let through = last.number.saturating_add(1).min(self.list.len());
        if places.second {
            self.sweep(last.number, |first| step(first, last));
        }
        if places.first {
            self.sweep(through, |second| step(last, second));
        }
    }

    /// Complete with `last` in either place: as the first premise it has to be before a node, as the second finished.
    pub(crate) fn complete_pairs(&mut self, last: Premise<'_>)
        ensures { Drawn self.old self.new (pairs_with (complete (contents_of self.old)) (held_in self.old) last.entry) }
    {
        let grammar = self.grammar;
        let places = Places {
            first: site(grammar, last.item).is_some(),
            second: finished(grammar, last.item),
        };
        self.pair(last, places, |x, y| complete_node(grammar, x, y));
    }

    /// Foot complete with `last` in either place: as the first premise it has to be finished, as the second at the first dot of a foot.
    pub(crate) fn foot_pairs(&mut self, last: Premise<'_>)
        ensures { Drawn self.old self.new (pairs_with (foot_complete (contents_of self.old)) (held_in self.old) last.entry) }
    {
        let grammar = self.grammar;
        let places = Places {
            first: finished(grammar, last.item),
            second: starts_foot(grammar, last.item),
        };
        self.pair(last, places, |x, f| complete_foot(grammar, x, f));
    }
}
