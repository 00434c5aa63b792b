//! The trees of a table and their nodes.
ghost use Rattle.std.specs.Prelude.{◌≡◌, length};
ghost use Rattle.format.specs.Parts.{nodes_at};

use crate::table::Table;
use format::node::{Node, Tree};

impl Table {
    /// The trees by their numbers.
    pub fn trees(&self) -> &[Tree]
        ensures { result.now ≡ self.now.trees.items }
    {
        self.trees.as_slice()
    }

    /// How many nodes all trees have together.
    pub fn node_count(&self) -> usize
        ensures { result ≡ length self.now.nodes.items }
    {
        self.nodes.len()
    }

    /// The nodes of a tree; none where there is no such tree.
    pub fn nodes(&self, tree: u8) -> &[Node]
        ensures { result.now ≡ nodes_at self.now.trees.items self.now.nodes.items tree }
    {
        let Some(tree) = self.trees().get(usize::from(tree)) else {
            return &[];
        };
        &self.nodes[tree.start..tree.start + tree.size]
    }
}
