//! A chart on standard output.
use crate::line::ItemLine;
use chart::chart::Chart;
use chart::life::judge;
use chart::refusal::Refusal;
use format::spot::Spot;
use grammar::grammar::Grammar;
use std::io;
use steps::item::{Item, Origin};
use words::Row;

/// How many items a chart has room for.
const CAPACITY: usize = 2000;

/// What stands where no item is held.
// No Default: an item that no step gave means nothing, and only memory that no chart has filled is made of it.
const BLANK: Item = Item {
    tree: 0,
    spot: Spot::Top,
    dot: 0,
    i: 0,
    j: 0,
    p: 0,
    q: 0,
    origin: Origin::Start,
};

/// What is shown of a chart: the chart, worked, and how many of its items are processed and held.
#[derive(Drop)]
struct Shown<'g> {
    chart: Chart<'g>,
    processed: usize,
    held: usize,
}

/// The chart of a row of words, worked until it rests or is full.
fn worked<'g>(grammar: &'g Grammar, memory: Vec<Item>, row: &Row) -> Result<Shown<'g>, Refusal> {
    judge(grammar, memory.as_slice(), row)?;
    let mut chart = Chart::make(grammar, memory, row);
    let (processed, held) = chart.work(u64::MAX, row)?;
    Ok(Shown {
        chart,
        processed,
        held,
    })
}

/// Prints the chart of the words, or the number by which it is refused.
pub(crate) fn sentence(rt: &HostRuntime, grammar: &Grammar, words: &[u16]) -> io::Result<()> {
    let memory = vec![in rt.alloc(); BLANK; CAPACITY]?;
    match worked(grammar, memory, &Row::new(words)) {
        Ok(shown) => show_chart(rt, &shown),
        Err(refusal) => rt.println(refusal),
    }
}

/// Each item's line, and then the line of the verdict and the counts.
fn show_chart(rt: &HostRuntime, shown: &Shown) -> io::Result<()> {
    for (number, item) in shown.chart.items().iter().enumerate() {
        let item = *item;
        rt.println(ItemLine { number, item })?;
    }
    let verdict = shown.chart.verdict();
    let (processed, held) = (shown.processed, shown.held);
    println!(rt; "{verdict}, {processed} processed, {held} held")
}
