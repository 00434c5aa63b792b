//! The rules of an adjoining field.
ghost use Rattle.std.specs.Prelude.{◌≡◌, cond, Ok, Err, ℕ, ◌+◌, ◌*◌, ◌<◌, ◌≤◌, length};
ghost use Rattle.std.specs.List.{list_all};
ghost use Rattle.format.specs.declared.fault.Rule.TheVariants as broken;
ghost use Rattle.format.specs.Judge.{target, suits, listable, needs_met, adjoinable, obligation_of};
ghost use Rattle.format.specs.Parts.{mark, no_list};

use crate::table::Table;
use format::fault::Rule;
use format::node::{Form, Kind, Obligation};

/// Whether a tree may adjoin at a node of this kind, as far as its list allows.
fn adjoinable(kind: Kind) -> bool
    ensures { result ≡ adjoinable kind }
{
    matches!(kind, Kind::Inner(_) | Kind::Foot(_))
}

impl Table {
    /// Where the node stands in the table, if there is such a node and it may be given a constraint.
    pub(crate) fn target(&self, tree: u8, node: u8) -> Option<usize>
        ensures { result ≡ target self.now.trees.items self.now.nodes.items tree node }
    {
        let tree = self.trees().get(usize::from(tree))?;
        let number = usize::from(node);
        if number >= tree.size {
            return None;
        }
        let slot = tree.start + number;
        let node = &self.nodes[slot];
        if !adjoinable(node.kind) || node.constraint.is_some() {
            return None;
        }
        Some(slot)
    }

    /// Whether the tree is an auxiliary tree with the label.
    fn suits(&self, label: u8, tree: u8) -> bool
        ensures { result ≡ suits self.now.trees.items label tree }
    {
        self.trees()
            .get(usize::from(tree))
            .is_some_and(|tree| tree.form == Form::Auxiliary && tree.label == label)
    }

    /// Whether the trees are all auxiliary trees with the label.
    fn all_suit(&self, label: u8, list: &[u8]) -> bool
        ensures { result ≡ list_all (λ b. suits self.now.trees.items label b) list.now }
    {
        list.iter().all(|tree| self.suits(label, *tree))
    }

    /// Whether tree numbers rise and are all of auxiliary trees with the label.
    pub(crate) fn listable(&self, label: u8, list: &[u8]) -> bool
        ensures { result ≡ listable self.now.trees.items label 0 list.now }
    {
        list.is_sorted_by(|tree, next| *tree < *next) && self.all_suit(label, list)
    }
}

/// What the byte says, unless it is above 1 or says obligatory with no tree to adjoin.
pub(crate) fn obligation(byte: u8, list: &[u8]) -> Result<Obligation, Rule>
    ensures { result ≡ cond (needs_met byte list.now) (Ok (obligation_of byte)) (Err broken.List) }
{
    let obligation = Obligation::try_from(byte)?;
    if obligation == Obligation::Obligatory && list.is_empty() {
        return Err(Rule::List);
    }
    Ok(obligation)
}

/// The listed trees as a set by tree number.
pub(crate) fn marked(list: &[u8]) -> [bool; 64]
    ensures { result ≡ mark list.now no_list }
{
    let mut set = [false; 64];
    for tree in list {
        let tree = usize::from(*tree);
        // By index: a proof knows no element of an array after a write through `get_mut`.
        if tree < set.len() {
            set[tree] = true;
        }
    }
    set
}
