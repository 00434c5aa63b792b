//! A word lattice: a list of edges between positions.
ghost use Rattle.std.specs.Prelude.{◌≡◌, ◌≤◌, true};
ghost use Rattle.distinct.specs.Lists.{records};
ghost use Rattle.words.specs.Edges.{all_inside};
ghost use Rattle.words.specs.Meaning.{greatest_last};

use crate::edge::Edge;
use distinct::DistinctList;

/// A word lattice. It holds each edge once, in the order in which they came, in memory that it was handed.
#[derive(Drop)]
pub struct Lattice {
    pub(crate) edges: DistinctList<Edge>,
    pub(crate) last: u32,
    ghost small: { last ≤ greatest_last },
    ghost inside: { all_inside last (records edges) ≡ true },
}
