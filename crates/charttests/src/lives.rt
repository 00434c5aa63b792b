//! Work in portions, and the memory handed back.
use crate::known::{KNOWN, MARK, check_item, memory, read};
use chart::chart::Chart;
use std::process::Abort;
use std::test::Fail;
use steps::item::Item;
use steps::verdict::Verdict;
use words::Row;

/// Checks a chart of `2 1` that is worked in portions against one that is worked at once.
fn check_portions(rt: &(impl Abort + AllocGlobal), portion: u64) -> Result<(), Fail> {
    let heap = rt.alloc();
    let grammar = read(heap, &KNOWN)?;
    let row = Row::new(&[2, 1]);
    let mut whole = Chart::make(&grammar, memory(heap, 20)?, &row);
    let mut parts = Chart::make(&grammar, memory(heap, 20)?, &row);
    let counts = whole.work(u64::MAX, &row)?;
    for _ in 0..12 {
        let _ = parts.work(portion, &row)?;
    }
    assert_eq!(rt; parts.work(portion, &row)?, counts);
    assert_eq!(rt; parts.verdict(), whole.verdict());
    assert_eq!(rt; whole.items().len(), counts.1);
    check_items(rt, &whole, &parts);
    Ok(())
}

/// Checks that the items of two charts agree.
fn check_items(rt: &impl Abort, whole: &Chart, parts: &Chart) {
    assert_eq!(rt; whole.items().len(), parts.items().len());
    for (a, b) in whole.items().iter().zip(parts.items()) {
        check_item(rt, a, b);
    }
}

#[test]
fn portions_of_work_add_up(rt: HostRuntime) -> Result<(), Fail> {
    check_portions(&rt, 1)?;
    check_portions(&rt, 2)?;
    check_portions(&rt, 3)?;
    check_portions(&rt, u64::MAX)
}

#[test]
fn a_chart_is_open_until_it_rests(rt: HostRuntime) -> Result<(), Fail> {
    let grammar = read(rt.alloc(), &KNOWN)?;
    let row = Row::new(&[2]);
    let mut chart = Chart::make(&grammar, memory(rt.alloc(), 20)?, &row);
    assert_eq!(rt; chart.work(0, &row)?, (0, 1));
    assert_eq!(rt; chart.verdict(), Verdict::Open);
    assert_eq!(rt; chart.work(7, &row)?, (7, 7));
    assert_eq!(rt; chart.verdict(), Verdict::No);
    Ok(())
}

/// Checks that the memory begins with the chart's items, and goes on as it was before the making.
fn check_memory(rt: &impl Abort, memory: &[Item], chart: &Chart) {
    for (number, item) in memory.iter().enumerate() {
        check_item(rt, item, &chart.item(number).unwrap_or(MARK));
    }
}

#[test]
fn memory_comes_back_with_the_items(rt: HostRuntime) -> Result<(), Fail> {
    let grammar = read(rt.alloc(), &KNOWN)?;
    let row = Row::new(&[1]);
    let mut chart = Chart::make(&grammar, memory(rt.alloc(), 8)?, &row);
    let mut kept = Chart::make(&grammar, memory(rt.alloc(), 8)?, &row);
    assert_eq!(rt; chart.work(100, &row)?, (6, 6));
    assert_eq!(rt; kept.work(100, &row)?, (6, 6));
    let closed = chart.close();
    assert_eq!(rt; closed.verdict(), Verdict::Yes);
    check_item(&rt, &closed.item(5)?, &kept.item(5)?);
    let memory = closed.release();
    assert_eq!(rt; memory.len(), 8);
    check_memory(&rt, memory.as_slice(), &kept);
    Ok(())
}
