//! Sets of groups, as a few runs from a low to a high group: the logs of leaves, and what is settled there.
#![tactic(auto)]

mod choice;
mod laws;
mod ranges;
mod run;
mod set;

pub use laws::ranges_are_exact;
pub use set::GroupSet;
