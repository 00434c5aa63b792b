//! Children, dots and feet: what stands where in a tree.
ghost use Rattle.std.specs.Prelude.{◌≡◌, position};
ghost use Rattle.format.specs.Keeps.{is_foot};
ghost use Rattle.format.specs.Questions.{nth, children_of, after_dot, foot_from, foot_of_tree};
ghost use Rattle.grammar.specs.Grammars.{contents_in};

use crate::grammar::Grammar;
use fields::shape::past_subtrees;
use format::node::{Kind, Node};
use format::spot::{Next, Spot};

/// The first foot among the nodes.
fn first_foot(nodes: &[Node]) -> Option<usize>
    ensures { result ≡ position (λ v. is_foot v.kind) nodes.now }
{
    nodes
        .iter()
        .position(|node| matches!(node.kind, Kind::Foot(_)))
}

impl Grammar {
    /// The child of the node with this number, from 0, if it has so many.
    pub fn child(&self, tree: u8, node: u8, number: u8) -> Option<u8>
        ensures { result ≡ nth (children_of (contents_in self.now) tree node) number }
    {
        let parent = self.node(tree, node)?;
        if number >= parent.children {
            return None;
        }
        past_subtrees(self.nodes(tree), usize::from(node) + 1, number).map(|n| n as u8)
    }

    /// What stands right after the dot, when the first `dot` children are passed.
    pub fn after_dot(&self, tree: u8, spot: Spot, dot: u8) -> Next
        ensures { result ≡ after_dot (contents_in self.now) tree spot dot }
    {
        match spot {
            Spot::Top if dot == 0 && self.node(tree, 0).is_some() => Next::Child(0),
            Spot::Top => Next::End,
            Spot::At(node) => match self.kind(tree, node) {
                Kind::Inner(_) => self.child(tree, node, dot).map_or(Next::End, Next::Child),
                Kind::Foot(_) if dot == 0 => Next::Bottom,
                Kind::Foot(_) | Kind::Word(_) | Kind::Empty => Next::End,
            },
        }
    }

    /// The foot of the tree, if it has one.
    pub fn foot(&self, tree: u8) -> Option<u8>
        ensures { result ≡ foot_of_tree (contents_in self.now) tree }
    {
        first_foot(self.nodes(tree)).map(|n| n as u8)
    }
}
