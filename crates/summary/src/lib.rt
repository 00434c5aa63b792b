//! What the programs tell of a grammar: how much it has; and the word for the layer of a fault.
#![tactic(auto)]

pub mod counts;
pub mod fault;
