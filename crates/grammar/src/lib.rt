//! Reading a grammar from bytes, and the questions that the layers above ask of one.
#![tactic(auto)]

mod draft;
pub mod grammar;
pub mod read;
pub mod table;
