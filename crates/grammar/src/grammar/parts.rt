//! The parts of a grammar.
ghost use Rattle.std.specs.Prelude.{◌≡◌, length, slice_get};
ghost use Rattle.std.specs.Option.{option_copied, unwrap_or};
ghost use Rattle.format.specs.Keeps.{node_in, nodes_in};
ghost use Rattle.format.specs.Parts.{no_node};
ghost use Rattle.grammar.specs.Grammars.{contents_in};

use crate::grammar::Grammar;
use format::node::{Node, Tree};

impl Grammar {
    /// How many labels there are; they are numbered from 1.
    pub fn labels(&self) -> u8
        ensures { result ≡ (contents_in self.now).labels }
    {
        self.header.labels
    }

    /// How many words there are; they are numbered from 1.
    pub fn words(&self) -> u16
        ensures { result ≡ (contents_in self.now).words }
    {
        self.header.words
    }

    // The grammar's table is a private field, so three of its questions are handed on.
    /// The trees, in the order of the file.
    pub fn trees(&self) -> &[Tree]
        ensures { result.now ≡ (contents_in self.now).trees }
    {
        self.table.trees()
    }

    /// How many trees there are: they are numbered from 0, and at most 64.
    pub fn tree_count(&self) -> u8
        ensures { result ≡ length (contents_in self.now).trees }
    {
        self.trees().len() as u8
    }

    /// How many nodes all trees have together.
    pub fn node_count(&self) -> usize
        ensures { result ≡ length (contents_in self.now).nodes }
    {
        self.table.node_count()
    }

    /// The nodes of a tree, in the order of the file; none where there is no such tree.
    pub fn nodes(&self, tree: u8) -> &[Node]
        ensures { result.now ≡ nodes_in (contents_in self.now) tree }
    {
        self.table.nodes(tree)
    }

    /// The node of a tree with this number, if the tree has so many.
    pub fn node(&self, tree: u8, node: u8) -> Option<&Node>
        ensures numbered { option_copied result ≡ slice_get (nodes_in (contents_in self.now) tree) node }
        ensures or_none { unwrap_or (option_copied result) no_node ≡ node_in (contents_in self.now) tree node }
    {
        self.nodes(tree).get(usize::from(node))
    }
}
