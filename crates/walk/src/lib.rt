//! Walking through the trees of a derivation, by a guide that makes the choices.
#![tactic(auto)]

pub mod choice;
pub mod guide;
pub mod machine;
mod node;
mod slots;
pub mod stack;
mod walking;
