//! The nodes that list a tree, in order.
ghost use Rattle.std.specs.Prelude.{◌≡◌, drop, position};
ghost use Rattle.format.specs.Keeps.{lists, nodes_in};
ghost use Rattle.format.specs.Questions.{first, listing_nodes, listing_from};
ghost use Rattle.grammar.specs.Grammars.{contents_in};

use crate::grammar::Grammar;
use crate::grammar::questions::listed;
use format::node::Node;
use format::spot::Site;

/// How many nodes stand before the first that lists the auxiliary tree.
fn first_listing(nodes: &[Node], auxiliary: u8) -> Option<usize>
    ensures { result ≡ position (λ v. lists v.constraint auxiliary) nodes.now }
{
    nodes.iter().position(|node| listed(node, auxiliary))
}

impl Grammar {
    /// The first of the tree's nodes, from the number `from` on, that lists the auxiliary tree.
    fn listing_in(&self, tree: u8, from: u8, auxiliary: u8) -> Option<Site>
        ensures { result ≡ first (listing_nodes auxiliary tree from (drop from (nodes_in (contents_in self.now) tree))) }
    {
        // No `skip`, which takes each node before `from` in turn.
        let behind = self.nodes(tree).get(usize::from(from)..)?;
        let past = first_listing(behind, auxiliary)?;
        Some(Site {
            tree,
            node: from + past as u8,
        })
    }

    /// The first node at or behind `from` that lists the auxiliary tree, by tree and then by node.
    pub fn next_listing(&self, auxiliary: u8, from: Site) -> Option<Site>
        ensures { result ≡ first (listing_from (contents_in self.now) auxiliary from.tree from.node) }
    {
        (from.tree..self.tree_count()).find_map(|tree| {
            let node = if tree == from.tree { from.node } else { 0 };
            self.listing_in(tree, node, auxiliary)
        })
    }
}
