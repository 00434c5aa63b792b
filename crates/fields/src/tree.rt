//! One elementary tree from the body of its field.
ghost use Rattle.std.specs.Prelude.{◌≡◌, ℕ, ◌+◌, ◌*◌, ◌<◌, ◌≤◌};
ghost use Rattle.format.specs.Judge.{entries, one_tree, judge_shape};
ghost use Rattle.format.specs.Ends.{freshes, bares};
ghost use Rattle.fields.specs.Reading.{Agrees, Shaped, Laid};

use crate::body::{arities, feet_right, read_nodes};
use crate::header::Header;
use crate::shape::close_subtrees;
use crate::stop::Stop;
use format::fault::Rule;
use format::node::{Form, Kind, Node};
use std::alloc::Global;

/// The root's label, where child counts make one tree by the rules and its root is an inner node; the nodes then have their ends.
pub(crate) fn shape(nodes: &mut [Node]) -> Option<u8>
    requires { nodes.old ≡ freshes (bares nodes.old) }
    ensures { Shaped (one_tree (bares nodes.old)) nodes.new result }
{
    if !arities(nodes) || !close_subtrees(nodes) {
        return None;
    }
    match nodes.first()?.kind {
        Kind::Inner(label) => Some(label),
        _ => None,
    }
}

/// The nodes of a tree, with the root's label.
#[derive(Drop)]
pub struct Planted {
    pub label: u8,
    pub nodes: Vec<Node>,
}

/// The tree of a body, by the rules for a tree of this form.
pub fn read_tree(heap: Global, header: Header, form: Form, body: &[u8]) -> Result<Planted, Stop>
    ensures { Agrees (judge_shape form (entries header.labels header.words 0 body.now)) Laid result }
{
    let mut nodes = read_nodes(heap, header, body)?;
    let label = shape(nodes.as_mut_slice()).ok_or(Rule::Shape)?;
    if !feet_right(form, label, nodes.as_slice()) {
        return Err(Rule::Foot.into());
    }
    Ok(Planted { label, nodes })
}
