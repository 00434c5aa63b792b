//! The nodes in the body of a tree field.
ghost use Rattle.std.specs.Prelude.{◌≡◌, ℕ, ◌+◌, ◌*◌, ◌<◌, ◌≤◌, length};
ghost use Rattle.format.specs.Judge.{entries, arities, arity, feet_right};
ghost use Rattle.format.specs.Trees.{plain_node};
ghost use Rattle.format.specs.Ends.{freshes, bares};
ghost use Rattle.fields.specs.Reading.{Agrees, judge_nodes};
ghost use Rattle.std.specs.List.{position};
ghost use Rattle.format.specs.Parts.{feet};
ghost use Rattle.format.specs.Keeps.{is_foot};

use crate::field::pair;
use crate::header::Header;
use crate::stop::Stop;
use format::fault::{Refusal, Rule};
use format::node::{Form, Kind, Node};
use std::alloc::Global;

/// A node just read: its subtree's end is not known, and it has no constraint.
fn fresh(kind: Kind, children: u8) -> Node
    ensures { result ≡ plain_node kind children 0 }
{
    Node {
        kind,
        children,
        end: 0,
        constraint: None,
    }
}

/// The nodes of a body in the order of the file, or the first with a bad kind or name.
pub(crate) fn read_nodes(heap: Global, header: Header, body: &[u8]) -> Result<Vec<Node>, Stop>
    ensures { Agrees (judge_nodes (entries header.labels header.words 0 body.now)) (λ v es. v.items ≡ freshes es) result }
{
    let mut nodes = Vec::new(heap);
    let mut rest = body;
    while let [kind, high, low, children, more @ ..] = rest {
        let kind = header.kind(*kind, pair(*high, *low)).ok_or(Refusal {
            rule: Rule::Name,
            node: nodes.len(),
        })?;
        nodes.push(fresh(kind, *children))?;
        rest = more;
    }
    Ok(nodes)
}

/// Whether a node of this kind may have so many children: an inner node 1 to 8, a leaf none.
fn fits(kind: Kind, children: u8) -> bool
    ensures { result ≡ arity kind children }
{
    match kind {
        Kind::Inner(_) => 0 < children && children <= 8,
        Kind::Word(_) | Kind::Empty | Kind::Foot(_) => children == 0,
    }
}

/// Whether each node has as many children as its kind may have.
pub(crate) fn arities(nodes: &[Node]) -> bool
    ensures { result ≡ arities (bares nodes.now) }
{
    nodes.iter().all(|node| fits(node.kind, node.children))
}

/// The first foot among the nodes.
fn first_foot(nodes: &[Node]) -> Option<usize>
    ensures { result ≡ position (λ v. is_foot v.kind) nodes.now }
{
    nodes
        .iter()
        .position(|node| matches!(node.kind, Kind::Foot(_)))
}

/// Whether the feet are right for a tree of this form whose root has the label.
pub(crate) fn feet_right(form: Form, label: u8, nodes: &[Node]) -> bool
    ensures { result ≡ feet_right form label (feet (bares nodes.now)) }
{
    match (form, first_foot(nodes)) {
        (Form::Initial, first) => first.is_none(),
        (Form::Auxiliary, Some(first)) => {
            nodes[first].kind == Kind::Foot(label) && first_foot(&nodes[first + 1..]).is_none()
        }
        (Form::Auxiliary, None) => false,
    }
}
