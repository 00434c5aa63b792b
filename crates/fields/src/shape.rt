//! The shape of a tree: child counts make one tree, and each node gets the number past its subtree.
ghost use Rattle.std.specs.Prelude.{◌≡◌, ℕ, ◌+◌, ◌*◌, ◌<◌, ◌≤◌, length};
ghost use Rattle.format.specs.Ends.{past, bares, freshes, Closed};

use format::node::Node;

/// The number past the `count` subtrees that begin at `from`, by their ends; none where fewer begin there.
pub fn past_subtrees(nodes: &[Node], from: usize, count: u8) -> Option<usize>
    ensures { result ≡ past nodes.now count from }
{
    let mut at = from;
    // Each child is found from the one before, so there is no list of children to go through.
    for _child in 0..count {
        at = nodes.get(at)?.end;
    }
    Some(at)
}

/// Gives each node the number past its subtree, from the last node to the first: a node's children are the subtrees that
/// begin right behind it. Answers whether the child counts make exactly one tree.
pub(crate) fn close_subtrees(nodes: &mut [Node]) -> bool
    requires { nodes.old ≡ freshes (bares nodes.old) }
    ensures { Closed (bares nodes.old) nodes.new result }
{
    // By number: a node is written while those behind it are read, and no iterator lends both.
    for i in (0..nodes.len()).rev() {
        let Some(end) = past_subtrees(nodes, i + 1, nodes[i].children) else {
            return false;
        };
        nodes[i].end = end;
    }
    nodes.first().is_some_and(|root| root.end == nodes.len())
}
