//! The stack of a walk: one entry for each tree under way.

/// Nodes of a tree that are still to walk: from `node` up to `end`, in the order of the tree.
#[derive(Clone, Copy)]
pub struct Piece {
    /// The tree's entry on the stack.
    pub frame: usize,
    /// What the guide calls the tree.
    pub tag: usize,
    pub tree: u8,
    pub node: usize,
    pub end: usize,
}

/// An entry of the stack, of one tree.
#[derive(Clone, Copy)]
pub struct Frame {
    /// What comes at the tree's foot: the content of the node that the tree is adjoined to.
    pub content: Option<Piece>,
    /// Room for two pieces that wait.
    pub waiting: [Piece; 2],
}

/// No nodes at all.
pub const NO_PIECE: Piece = Piece {
    frame: 0,
    tag: 0,
    tree: 0,
    node: 0,
    end: 0,
};

/// An entry as a stack may have it before a walk: what stands there is never read.
pub const BLANK: Frame = Frame {
    content: None,
    waiting: [NO_PIECE; 2],
};
