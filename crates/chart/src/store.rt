//! The items of a chart in memory.
use distinct::DistinctList;
use grammar::grammar::Grammar;
use steps::item::Item;

/// The items that are drawn over a grammar. `full` says that a new item once found no room, or that `judge` refused what the chart was to be made of.
#[derive(Drop)]
pub struct Store<'g> {
    pub(crate) grammar: &'g Grammar,
    pub(crate) list: DistinctList<Item>,
    // A flag: a full store keeps its items and still shows them, so there is no value that only one of two cases has.
    pub(crate) full: bool,
}

/// A premise of a step: an item and its number.
#[derive(Clone, Copy)]
pub(crate) struct Premise<'a> {
    pub(crate) number: usize,
    pub(crate) item: &'a Item,
}
