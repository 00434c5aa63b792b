//! One more tree in a table.
ghost use Rattle.std.specs.Prelude.{◌≡◌, ◌+◌, ◌&&◌, not, [], ◌∷◌, ◌++◌, length, OnOk, nat_le, nat_lt};
ghost use Rattle.std.specs.List.{list_any};
ghost use Rattle.format.specs.Judge.{some_initial, is_auxiliary};
ghost use Rattle.grammar.specs.Tables.{tree_behind};

use crate::table::Table;
use fields::tree::Planted;
use format::node::{Form, Tree};
use std::alloc::{AllocError, Global};

impl Table {
    /// A table without trees.
    pub(crate) fn new(heap: Global) -> Table
        ensures trees { result.trees.items ≡ [] }
        ensures nodes { result.nodes.items ≡ [] }
    {
        Table {
            trees: Vec::new(heap),
            nodes: Vec::new(heap),
        }
    }

    /// Whether one more tree with so many nodes finds room: a grammar has at most 64 trees and 256 nodes.
    pub(crate) fn has_room(&self, nodes: usize) -> bool
        ensures { result ≡ (nat_lt (length self.now.trees.items) 64 && nat_le (length self.now.nodes.items + nodes) 256) }
    {
        self.trees.len() < 64 && self.nodes.len().saturating_add(nodes) <= 256
    }

    /// One more tree, with its nodes behind all others.
    pub(crate) fn add_tree(&mut self, form: Form, planted: &Planted) -> Result<(), AllocError>
        ensures trees { OnOk result (self.new.trees.items ≡ self.old.trees.items ++ (tree_behind self.old.nodes.items form planted.now ∷ [])) }
        ensures nodes { OnOk result (self.new.nodes.items ≡ self.old.nodes.items ++ planted.now.nodes.items) }
    {
        let start = self.nodes.len();
        self.nodes.extend_from_slice(&planted.nodes)?;
        self.trees.push(Tree {
            form,
            label: planted.label,
            start,
            size: planted.nodes.len(),
        })?;
        Ok(())
    }

    /// Whether some tree is initial.
    pub(crate) fn some_initial(&self) -> bool
        ensures { result ≡ some_initial self.now.trees.items }
    {
        any_initial(self.trees())
    }
}

/// Whether one of the trees is initial.
fn any_initial(trees: &[Tree]) -> bool
    ensures { result ≡ list_any (λ t. not (is_auxiliary t.form)) trees.now }
{
    trees.iter().any(|tree| tree.form == Form::Initial)
}
