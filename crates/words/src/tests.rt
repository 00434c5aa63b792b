use super::*;
use std::test::Fail;

#[test]
fn a_row_has_at_most_65535_words(rt: HostRuntime) -> Result<(), Fail> {
    let words = vec![in rt.alloc(); 7u16; 65536]?;
    assert!(rt; words.len() == 65536);
    let empty = Row::new(&words.as_slice()[0..0]);
    assert_eq!(rt; empty.last_position(), 0);
    let most = Row::new(&words.as_slice()[0..65535]);
    assert_eq!(rt; most.last_position(), 65535);
    assert!(rt; most.has_edge(65534, 7, 65535));
    assert_eq!(rt; judge_row(words.as_slice()), Err(Refusal::OutOfBounds));
    let refused = Row::new(words.as_slice());
    assert_eq!(rt; refused.last_position(), 0);
    Ok(())
}

#[test]
fn a_zero_in_a_row_leads_nowhere(rt: HostRuntime) {
    let row = Row::new(&[3, 0]);
    assert!(rt; row.has_edge(0, 3, 1));
    assert!(rt; !row.has_edge(1, 0, 2));
    assert!(rt; !row.has_edge(2, 0, 3));
}

#[test]
fn a_lattice_has_a_last_position_of_at_most_65535(rt: HostRuntime) -> Result<(), Fail> {
    assert_eq!(rt; judge_lattice(0), Ok(()));
    assert_eq!(rt; judge_lattice(65535), Ok(()));
    assert_eq!(rt; judge_lattice(65536), Err(Refusal::OutOfBounds));
    let mut none = Lattice::new(vec![in rt.alloc(); Edge::default(); 1]?, 0);
    assert_eq!(rt; none.add_edge(0, 1, 0), Err(Refusal::OutOfBounds));
    assert_eq!(rt; none.add_edge(0, 1, 1), Err(Refusal::OutOfBounds));
    Ok(())
}

#[test]
fn edges_keep_the_bounds(rt: HostRuntime) -> Result<(), Fail> {
    let mut lattice = Lattice::new(vec![in rt.alloc(); Edge::default(); 1]?, 65535);
    assert_eq!(rt; lattice.add_edge(5, 1, 5), Err(Refusal::OutOfBounds));
    assert_eq!(rt; lattice.add_edge(5, 1, 65536), Err(Refusal::OutOfBounds));
    assert_eq!(rt; lattice.add_edge(5, 1, 65535), Ok(0));
    assert_eq!(rt; lattice.add_edge(5, 1, 65535), Ok(0));
    assert_eq!(rt; lattice.add_edge(5, 2, 65535), Err(Refusal::ListFull));
    assert!(rt; lattice.has_edge(5, 1, 65535));
    Ok(())
}

#[test]
fn no_memory_is_a_full_list(rt: HostRuntime) {
    let mut lattice = Lattice::new(Vec::new(rt.alloc()), 3);
    assert_eq!(rt; lattice.add_edge(3, 1, 2), Err(Refusal::OutOfBounds));
    assert_eq!(rt; lattice.add_edge(0, 1, 3), Err(Refusal::ListFull));
    assert_eq!(rt; Refusal::ListFull.number(), 22);
}

#[test]
fn a_window_lies_within_its_source(rt: HostRuntime) {
    let row = Row::new(&[4, 5, 6]);
    assert_eq!(rt; judge_window(&row, 1, 4), Err(Refusal::OutOfBounds));
    assert_eq!(rt; judge_window(&row, 2, 1), Err(Refusal::OutOfBounds));
    let window = Window::new(&row, 1, 3);
    assert_eq!(rt; window.last_position(), 2);
    assert!(rt; window.has_edge(0, 5, 1) && window.has_edge(1, 6, 2));
    assert_eq!(rt; Window::new(&window, 1, 3).last_position(), 0);
}
