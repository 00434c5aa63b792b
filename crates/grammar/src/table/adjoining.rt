//! The adjoining constraint of one node of a table.
ghost use Rattle.std.specs.Prelude.{◌≡◌, ◌<◌, length, slice_index_or, slice_set};
ghost use Rattle.format.specs.Judge.{adjoin};
ghost use Rattle.format.specs.Parts.{no_node, constrained};
ghost use Rattle.grammar.specs.Adjoins.{Adjoins, OneSet};

use crate::table::Table;
use crate::table::constraint::{marked, obligation};
use format::fault::Rule;
use format::node::Constraint;

impl Table {
    /// Gives one node of the table a constraint; every other node, and every tree, stays as it was.
    fn constrain(&mut self, slot: usize, constraint: Constraint)
        requires { slot < length self.old.nodes.items }
        ensures nodes { self.new.nodes.items ≡ slice_set self.old.nodes.items slot (constrained (slice_index_or self.old.nodes.items slot no_node) constraint) }
        ensures trees { self.new.trees ≡ self.old.trees }
    {
        self.nodes[slot].constraint = Some(constraint);
    }

    /// Sets the adjoining constraint of one node by the bytes of an adjoining field, or says which rule they break.
    /// Every other node and every tree stays as it was, and after a refusal the whole table does.
    pub fn adjoin(&mut self, tree: u8, node: u8, choice: u8, list: &[u8]) -> Result<(), Rule>
        ensures answers { Adjoins (adjoin self.old.trees.items self.old.nodes.items tree node choice list.now) self.old self.new result }
        ensures touches { OneSet tree node choice list.now self.old self.new result }
    {
        let slot = self.target(tree, node).ok_or(Rule::Target)?;
        let obligation = obligation(choice, list)?;
        let label = self.nodes[slot].kind.label();
        if !self.listable(label, list) {
            return Err(Rule::List);
        }
        let constraint = Constraint {
            obligation,
            listed: marked(list),
        };
        self.constrain(slot, constraint);
        Ok(())
    }
}
