//! Reading fields, and the tree of a tree field.
#![tactic(auto)]

mod body;
pub mod field;
pub mod header;
pub mod shape;
pub mod stop;
pub mod tree;
