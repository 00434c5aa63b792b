//! What is picked at a node that lists trees, and why a walk halts.

/// What is picked at a node that lists trees.
// No Option: a guide answers `Option<Choice>`, and `Option<Option<(u8, usize)>>` would not show which None stops the walk and which leaves the node as it is.
#[derive(Clone, Copy)]
pub enum Choice {
    /// The node stays as it is.
    Stay,
    /// It takes a tree, with the tag by which the guide will know that tree.
    Adjoin(u8, usize),
}

/// Why a walk did not come to its end.
#[derive(Clone, Copy, PartialEq, Eq, Debug)]
pub enum Halt {
    /// The guide stopped it.
    Stopped,
    /// It was not begun: the stack has no more entries than the guide has choices left.
    SmallStack,
}
