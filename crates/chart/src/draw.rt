//! One conclusion drawn into the store.
ghost use Rattle.std.specs.Prelude.{[], ◌∷◌};
ghost use Rattle.chart.specs.Drawn.{Drawn};

use crate::store::Store;
use steps::item::Item;

impl Store<'_> {
    /// Offers an item to the distinct list of held items. A full store takes no more.
    pub(crate) fn draw(&mut self, item: Item)
        ensures { Drawn self.old self.new (item ∷ []) }
    {
        if self.full {
            return;
        }
        self.full = self.list.add(item).is_err();
    }
}
