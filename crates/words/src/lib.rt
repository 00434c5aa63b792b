//! Sources of words: a last position and a set of edges, each with a word, that lead from one position to a later one.
#![tactic(auto)]

pub mod edge;
pub mod lattice;
pub mod lattices;
pub mod refusal;
pub mod row;
pub mod rows;
pub mod source;
pub mod window;
pub mod windows;

pub use edge::Edge;
pub use lattice::Lattice;
pub use lattices::judge_lattice;
pub use refusal::Refusal;
pub use row::Row;
pub use rows::judge_row;
pub use source::{Source, admits_empty};
pub use window::Window;
pub use windows::judge_window;

#[cfg(test)]
mod tests;
