//! How deep a node lies in its tree.
ghost use Rattle.std.specs.Prelude.{◌≡◌};
ghost use Rattle.showgrammar.specs.Depths.{reaching};

use format::node::Node;

/// How many of the nodes before a node have a subtree that reaches past its number, so how deep it lies below the root.
pub(crate) fn depth(before: &[Node], number: usize) -> usize
    ensures { result ≡ reaching number before.now }
{
    before.iter().filter(|node| number < node.end).count()
}
