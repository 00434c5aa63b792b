//! What a chart refuses.
use crate::known::{KNOWN, memory, read};
use chart::chart::Chart;
use chart::life::judge;
use chart::refusal::Refusal;
use std::test::Fail;
use steps::verdict::Verdict;
use words::Row;

/// Two initial trees over word 1.
const TWO_INITIAL: [u8; 28] = [
    1, 0, 3, 1, 0, 1, 2, 0, 8, 0, 0, 1, 1, 1, 0, 1, 0, 2, 0, 8, 0, 0, 1, 1, 1, 0, 1, 0,
];

#[test]
fn capacity_and_last_position_are_judged(rt: HostRuntime) -> Result<(), Fail> {
    let heap = rt.alloc();
    let grammar = read(heap, &KNOWN)?;
    let row = Row::new(&[1; 250]);
    let longer = Row::new(&[1; 251]);
    assert_eq!(rt;
        judge(&grammar, memory(heap, 0)?.as_slice(), &longer),
        Err(Refusal::Capacity)
    );
    assert_eq!(rt;
        judge(&grammar, memory(heap, 60001)?.as_slice(), &row),
        Err(Refusal::Capacity)
    );
    assert_eq!(rt;
        judge(&grammar, memory(heap, 1)?.as_slice(), &longer),
        Err(Refusal::SourceTooLong)
    );
    assert_eq!(rt;
        judge(&grammar, memory(heap, 60000)?.as_slice(), &row),
        Ok(())
    );
    assert_eq!(rt; Refusal::Capacity.number(), 13);
    assert_eq!(rt; Refusal::SourceTooLong.number(), 14);
    Ok(())
}

#[test]
fn a_full_chart_takes_no_work(rt: HostRuntime) -> Result<(), Fail> {
    let grammar = read(rt.alloc(), &TWO_INITIAL)?;
    let row = Row::new(&[1]);
    let mut chart = Chart::make(&grammar, memory(rt.alloc(), 1)?, &row);
    assert_eq!(rt; chart.verdict(), Verdict::Full);
    assert_eq!(rt; chart.work(1, &row), Err(Refusal::Full));
    assert_eq!(rt; chart.work(1, &Row::new(&[])), Err(Refusal::Full));
    assert_eq!(rt; Refusal::Full.number(), 20);
    Ok(())
}

#[test]
fn a_chart_full_at_work_takes_no_more(rt: HostRuntime) -> Result<(), Fail> {
    let grammar = read(rt.alloc(), &KNOWN)?;
    let row = Row::new(&[2, 1]);
    let mut chart = Chart::make(&grammar, memory(rt.alloc(), 11)?, &row);
    assert_eq!(rt; chart.work(100, &row), Ok((11, 11)));
    assert_eq!(rt; chart.work(100, &row), Err(Refusal::Full));
    Ok(())
}

#[test]
fn a_source_of_another_length_changes_nothing(rt: HostRuntime) -> Result<(), Fail> {
    let grammar = read(rt.alloc(), &KNOWN)?;
    let row = Row::new(&[2, 1]);
    let mut chart = Chart::make(&grammar, memory(rt.alloc(), 20)?, &row);
    assert_eq!(rt; chart.work(3, &row), Ok((3, 4)));
    assert_eq!(rt; chart.work(3, &Row::new(&[2])), Err(Refusal::OtherSource));
    assert_eq!(rt; chart.verdict(), Verdict::Open);
    assert_eq!(rt; chart.work(0, &row), Ok((3, 4)));
    assert_eq!(rt; chart.work(100, &row), Ok((12, 12)));
    assert_eq!(rt; Refusal::OtherSource.number(), 21);
    Ok(())
}

#[test]
fn items_are_shown_up_to_the_last(rt: HostRuntime) -> Result<(), Fail> {
    let grammar = read(rt.alloc(), &KNOWN)?;
    let row = Row::new(&[1]);
    let mut chart = Chart::make(&grammar, memory(rt.alloc(), 20)?, &row);
    assert_eq!(rt; chart.work(100, &row), Ok((6, 6)));
    assert!(rt; chart.item(5).is_ok());
    assert_eq!(rt; chart.item(6).err(), Some(Refusal::NoSuchItem));
    assert_eq!(rt; chart.close().item(6).err(), Some(Refusal::NoSuchItem));
    assert_eq!(rt; Refusal::NoSuchItem.number(), 25);
    Ok(())
}
