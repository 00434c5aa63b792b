//! Spelling the certificate of a closed chart.
#![tactic(auto)]

pub mod refusal;
