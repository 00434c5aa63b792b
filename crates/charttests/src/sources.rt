//! Every kind of source under one chart.
use crate::known::{KNOWN, memory, read};
use chart::chart::Chart;
use chart::refusal::Refusal;
use std::test::Fail;
use steps::verdict::Verdict;
use words::{Edge, Lattice, Row, Window};

#[test]
fn a_chart_takes_every_kind_of_source(rt: HostRuntime) -> Result<(), Fail> {
    let grammar = read(rt.alloc(), &KNOWN)?;
    let row = Row::new(&[2, 1]);
    let mut lattice = Lattice::new(vec![in rt.alloc(); Edge::default(); 4]?, 2);
    let _ = lattice.add_edge(0, 2, 1);
    let _ = lattice.add_edge(1, 1, 2);
    let longer = Row::new(&[1, 2, 1, 2]);
    let window = Window::new(&longer, 1, 3);
    let mut chart = Chart::make(&grammar, memory(rt.alloc(), 20)?, &row);
    assert_eq!(rt; chart.work(4, &row), Ok((4, 5)));
    assert_eq!(rt; chart.work(4, &lattice), Ok((8, 9)));
    assert_eq!(rt; chart.work(4, &window), Ok((12, 12)));
    assert_eq!(rt; chart.verdict(), Verdict::Yes);
    assert_eq!(rt; chart.work(4, &longer), Err(Refusal::OtherSource));
    Ok(())
}
