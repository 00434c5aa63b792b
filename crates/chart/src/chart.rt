//! An open chart and a closed one.
ghost use Rattle.std.specs.Prelude.{◌≡◌, ◌≤◌, false};
ghost use Rattle.steps.specs.Items.{most_positions};
ghost use Rattle.theory.specs.Came.{Came};
ghost use Rattle.chart.specs.Drawn.{contents_of, held_in};

use crate::store::Store;

/// A chart over a grammar: its items, how many of them are processed, and the last position of its source.
#[derive(Drop)]
pub struct Chart<'g> {
    pub(crate) store: Store<'g>,
    pub(crate) processed: usize,
    pub(crate) last: u32,
    ghost behind: { processed ≤ store.list.held },
    ghost short: { store.full ≡ false → last ≤ most_positions },
    ghost came: { Came (contents_of store) (held_in store) },
}

/// A chart that takes no more work. It still tells its verdict and shows its items, and it alone hands its memory back.
#[derive(Drop)]
pub struct Closed<'g> {
    pub(crate) chart: Chart<'g>,
}
