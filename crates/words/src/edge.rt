//! An edge of a word lattice.
/// The word `word` leads from the position `from` to the position `to`.
#[derive(Clone, Copy, PartialEq, Eq, Debug, Default)]
pub struct Edge {
    pub from: u16,
    pub word: u16,
    pub to: u16,
}
