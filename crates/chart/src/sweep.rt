//! One loop over held items for every step.
ghost use Rattle.std.specs.Prelude.{◌≡◌, ℕ, Option, take};
ghost use Rattle.std.specs.Option.{option_to_list};
ghost use Rattle.steps.specs.declared.item.Item.{Item};
ghost use Rattle.steps.specs.Orders.{each};
ghost use Rattle.chart.specs.Drawn.{Drawn, held_in};

use crate::store::{Premise, Store};
use steps::item::Item;

impl Store<'_> {
    /// Tries the held items with a number below `n`, in rising order, as the premise that is left, and draws what the step concludes.
    pub(crate) fn sweep<F: Fn(Premise<'_>) -> Option<Item>>(&mut self, n: usize, step: F)
        requires { F.IsAlwaysCallable step }
        ensures { (g : ℕ → Item → Option Item) → ((p : _) (r : _) → F.post step p r → r ≡ g p.number p.item.now)
            → Drawn self.old self.new (each (λ k x. option_to_list (g k x)) 0 (take n (held_in self.old))) }
    {
        // By number: a conclusion that is drawn changes the list, so no iterator can lend its items meanwhile.
        for number in 0..n.min(self.list.len()) {
            if self.full {
                return;
            }
            let item = &self.list.items()[number];
            let Some(conclusion) = step(Premise { number, item }) else {
                continue;
            };
            self.draw(conclusion);
        }
    }
}
