//! Judging, making, filling and asking a word lattice.
ghost use Rattle.std.specs.Prelude.{◌≡◌, true, false, is_ok};
ghost use Rattle.distinct.specs.Runs.{begun};
ghost use Rattle.words.specs.Bounds.{lattice_bounded};
ghost use Rattle.words.specs.Edges.{edge_of, edge_within, same_edge, judged_lattice, empty_lattice};
ghost use Rattle.words.specs.Lattices.{lattice_meaning, edge_answer, list_of, list_after, Gains};
ghost use Rattle.std.proofs.Common.{rules};

use crate::edge::Edge;
use crate::lattice::Lattice;
use crate::refusal::Refusal;
use crate::source::{GREATEST_LAST, Source};
use distinct::{DistinctList, Same};

impl Same for Edge {
    ghost alike = { same_edge };

    ghost reflexive = { Prim.search rules };

    ghost symmetric = { Prim.search rules };

    ghost transitive = { Prim.search rules };

    fn same(&self, other: &Edge) -> bool {
        self == other
    }
}

/// Judges whether a lattice may have the last position `last`: it is at most 65,535.
pub fn judge_lattice(last: u32) -> Result<(), Refusal>
    ensures { result ≡ judged_lattice last }
{
    if last > GREATEST_LAST {
        return Err(Refusal::OutOfBounds);
    }
    Ok(())
}

impl Lattice {
    /// A lattice without edges, with room for as many as `memory` has. Where `judge_lattice` refuses `last`, its last position is 0.
    pub fn new(memory: Vec<Edge>, last: u32) -> Lattice
        ensures means { lattice_meaning result ≡ empty_lattice last }
        ensures list { list_of result ≡ begun memory.items }
    {
        Lattice {
            edges: DistinctList::new(memory),
            last: judge_lattice(last).map_or(0, |()| last),
        }
    }

    /// The edge between two positions, where it keeps the lattice's bounds.
    fn edge_within(&self, from: u32, word: u16, to: u32) -> Option<Edge>
        ensures { result ≡ edge_within self.now.last from word to }
    {
        if from >= to || to > self.last {
            return None;
        }
        Some(Edge {
            from: from as u16,
            word,
            to: to as u16,
        })
    }

    /// Adds an edge, and answers its number. The same edge is held once. A refusal leaves the list as it was.
    pub fn add_edge(&mut self, from: u32, word: u16, to: u32) -> Result<usize, Refusal>
        ensures answers { result ≡ edge_answer self.old from word to }
        ensures after { list_of self.new ≡ list_after self.old from word to }
        ensures refused { is_ok result ≡ false → list_of self.new ≡ list_of self.old }
        ensures means { Gains (lattice_meaning self.old) (is_ok result) (edge_of from word to) (lattice_meaning self.new) }
        ensures last { self.new.last ≡ self.old.last }
    {
        let edge = self
            .edge_within(from, word, to)
            .ok_or(Refusal::OutOfBounds)?;
        Ok(self.edges.add(edge)?)
    }

    /// Hands the memory back.
    pub fn into_memory(self) -> Vec<Edge>
        ensures { result ≡ self.edges.memory }
    {
        self.edges.into_memory()
    }
}

impl Source for Lattice {
    ghost meaning = { lattice_meaning };

    ghost bounded = { lattice_bounded };

    fn last_position(&self) -> u32 {
        self.last
    }

    fn has_edge(&self, from: u32, word: u16, to: u32) -> bool {
        self.edge_within(from, word, to)
            .is_some_and(|edge| self.edges.contains(&edge))
    }
}
