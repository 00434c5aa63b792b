//! What the layers above ask of a grammar.
ghost use Rattle.std.specs.Prelude.{◌≡◌, false, slice_index_or};
ghost use Rattle.std.specs.Option.{option_copied};
ghost use Rattle.format.specs.Keeps.{node_in, may_stay, lists};
ghost use Rattle.format.specs.Questions.{may_start};
ghost use Rattle.grammar.specs.Grammars.{contents_in};

use crate::grammar::Grammar;
use format::node::{Constraint, Form, Kind, Node, Obligation};

// A tree and a node are two arguments: a chart's item has its tree and its place in the tree as two fields, so a pair would
// have to be built for each question and be no plainer.
impl Grammar {
    /// Whether a derivation may start with the tree.
    pub fn may_start(&self, tree: u8) -> bool
        ensures { result ≡ may_start (contents_in self.now) tree }
    {
        self.trees()
            .get(usize::from(tree))
            .is_some_and(|tree| tree.form == Form::Initial)
    }

    /// What the node is; an inner node with no label where there is none.
    pub fn kind(&self, tree: u8, node: u8) -> Kind
        ensures { result ≡ (node_in (contents_in self.now) tree node).kind }
    {
        self.node(tree, node)
            .map_or(Kind::Inner(0), |node| node.kind)
    }

    /// The constraint of the node, if it has one.
    fn constraint(&self, tree: u8, node: u8) -> Option<&Constraint>
        ensures { option_copied result ≡ (node_in (contents_in self.now) tree node).constraint }
    {
        self.node(tree, node)?.constraint.as_ref()
    }

    /// Whether the node may stay as it is.
    pub fn may_stay(&self, tree: u8, node: u8) -> bool
        ensures { result ≡ may_stay (node_in (contents_in self.now) tree node).constraint }
    {
        self.constraint(tree, node)
            .is_none_or(|constraint| constraint.obligation == Obligation::Optional)
    }

    /// Whether the node lists the tree as one that may adjoin.
    pub fn lists(&self, tree: u8, node: u8, auxiliary: u8) -> bool
        ensures { result ≡ lists (node_in (contents_in self.now) tree node).constraint auxiliary }
    {
        self.node(tree, node)
            .is_some_and(|node| listed(node, auxiliary))
    }
}

/// Whether the node lists the tree.
pub(crate) fn listed(node: &Node, auxiliary: u8) -> bool
    ensures { result ≡ lists node.now.constraint auxiliary }
{
    node.constraint
        .as_ref()
        .is_some_and(|constraint| in_set(&constraint.listed, auxiliary))
}

/// Whether a number is in a set of numbers.
fn in_set(set: &[bool], number: u8) -> bool
    ensures { result ≡ slice_index_or set.now number false }
{
    set.get(usize::from(number)) == Some(&true)
}
