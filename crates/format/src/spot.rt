//! Where one can stand in a tree, and what comes next there.
ghost use Rattle.std.specs.Prelude.{Some};
ghost use Rattle.format.specs.Texts.{spot_text};

use std::fmt;

/// A place in a tree that has children: the tree's top, above its root, or one of its nodes.
// No Option: a place is always there, and `None` would not say that it is the top.
#[derive(Clone, Copy, PartialEq, Eq, Debug)]
pub enum Spot {
    Top,
    At(u8),
}

/// The top, or the node by its number.
impl fmt::Display for Spot {
    ghost output = { λ x. Some (spot_text x) };

    fn fmt<W: fmt::Write>(&self, f: &mut fmt::Formatter<W>) -> fmt::Result {
        match self {
            Spot::Top => f.write_str("top"),
            Spot::At(node) => write!(f, "node {node}"),
        }
    }
}

/// What stands right after a dot: nothing, the bottom of a foot, or a child.
#[derive(Clone, Copy, PartialEq, Eq, Debug)]
pub enum Next {
    End,
    Bottom,
    Child(u8),
}

/// A node of a grammar: its tree and its number within the tree.
#[derive(Clone, Copy, PartialEq, Eq, Debug)]
pub struct Site {
    pub tree: u8,
    pub node: u8,
}
