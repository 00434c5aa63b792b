//! Tests of the chart over the known grammar.
#![tactic(auto)]

#[cfg(test)]
mod known;
#[cfg(test)]
mod lives;
#[cfg(test)]
mod refusals;
#[cfg(test)]
mod sources;
#[cfg(test)]
mod verdicts;
