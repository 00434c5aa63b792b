//! Questions on a node of the walk.
ghost use Rattle.std.specs.Prelude.{◌≡◌};
ghost use Rattle.format.specs.Keeps.{taken_trees, any};
ghost use Rattle.walk.specs.Stacks.{content_piece};

use crate::stack::Piece;
use format::node::{Kind, Node};

/// Whether the node lists a tree.
pub(crate) fn lists_any(node: &Node) -> bool
    ensures { result ≡ any (taken_trees node.now.constraint) }
{
    // The definition's own two cases: with `is_some_and` the proof needs what the closure answers too, and the code is as long.
    match &node.constraint {
        None => false,
        Some(constraint) => constraint.listed.contains(&true),
    }
}

/// The content of a node: what comes at the foot, for a foot; otherwise what is inside.
pub(crate) fn content_of(kind: Kind, inside: Piece, at_foot: Option<Piece>) -> Option<Piece>
    ensures { result ≡ content_piece kind inside at_foot }
{
    match kind {
        Kind::Foot(_) => at_foot,
        _ => Some(inside),
    }
}
