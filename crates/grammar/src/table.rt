//! The trees of a grammar, and the nodes of all its trees.
ghost use Rattle.format.specs.Tables.{Fit};

use format::node::{Node, Tree};

/// The trees by their numbers, and the nodes of all trees one behind the other. Every tree has its nodes in the table.
// One list of nodes with a range of it for each tree is the project's rule: the definitions speak of that list, and an
// adjoining field changes one element of it through `&mut self`.
#[derive(Drop)]
pub struct Table {
    trees: Vec<Tree>,
    nodes: Vec<Node>,
    ghost fit: { Fit trees.items nodes.items },
}

mod adding;
mod adjoining;
mod asking;
mod constraint;
