//! The chart: items in memory that it owns while it lives, drawn by the steps.
#![tactic(auto)]

mod adjoining;
mod asking;
pub mod chart;
mod concluding;
mod draw;
mod feet;
pub mod life;
mod pairs;
mod process;
pub mod refusal;
mod singles;
mod store;
mod sweep;
pub mod telling;
