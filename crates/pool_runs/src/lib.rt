//! Runs of a host over any number of pools (docs/MODEL.md, "The host and its runs").
#![tactic(auto)]

mod laws;
mod premises;

pub use laws::{runs_keep_each_pool, small_runs_are_runs};
pub use premises::premises_in_plain_words;
