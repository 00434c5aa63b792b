//! The known grammar, and charts over it.
use chart::chart::Chart;
use distinct::Same;
use format::spot::Spot;
use grammar::grammar::Grammar;
use std::alloc::{AllocError, Global};
use std::process::Abort;
use std::test::Fail;
use steps::item::{Item, Origin};
use steps::verdict::Verdict;
use words::Row;

/// One label, two words, an initial tree over word 1, and an auxiliary tree with word 2 before its foot, which may adjoin at the initial tree's root.
pub(crate) const KNOWN: [u8; 39] = [
    1, 0, 3, 1, 0, 2, 2, 0, 8, 0, 0, 1, 1, 1, 0, 1, 0, 3, 0, 12, 0, 0, 1, 2, 1, 0, 2, 0, 3, 0, 1,
    0, 4, 0, 4, 0, 0, 1, 1,
];

/// What memory holds before a chart is made of it.
pub(crate) const MARK: Item = Item {
    tree: 77,
    spot: Spot::At(78),
    dot: 79,
    i: 80,
    j: 81,
    p: 82,
    q: 83,
    origin: Origin::AdjoinComplete(84, 85, 86),
};

/// The grammar that the bytes are.
pub(crate) fn read(heap: Global, bytes: &[u8]) -> Result<Grammar, Fail> {
    Ok(Grammar::read(heap, bytes)?)
}

/// Memory with room for so many items.
pub(crate) fn memory(heap: Global, capacity: usize) -> Result<Vec<Item>, AllocError> {
    vec![in heap; MARK; capacity]
}

/// What a chart tells when it has been worked.
#[derive(Clone, Copy, PartialEq, Eq, Debug)]
pub(crate) struct Told {
    pub(crate) verdict: Verdict,
    pub(crate) processed: usize,
    pub(crate) held: usize,
}

impl Told {
    /// What a chart with this verdict and these counts tells.
    pub(crate) fn new(verdict: Verdict, processed: usize, held: usize) -> Told {
        Told {
            verdict,
            processed,
            held,
        }
    }
}

/// What the chart of a row of words, with room for so many items, tells when all its work is done at once.
pub(crate) fn worked(
    heap: Global,
    bytes: &[u8],
    capacity: usize,
    words: &[u16],
) -> Result<Told, Fail> {
    let grammar = read(heap, bytes)?;
    let row = Row::new(words);
    let mut chart = Chart::make(&grammar, memory(heap, capacity)?, &row);
    let (processed, held) = chart.work(u64::MAX, &row)?;
    Ok(Told {
        verdict: chart.verdict(),
        processed,
        held,
    })
}

/// Checks that two items agree, origins too.
pub(crate) fn check_item(rt: &impl Abort, a: &Item, b: &Item) {
    assert!(rt; a.same(b));
    assert_eq!(rt; a.origin, b.origin);
}
