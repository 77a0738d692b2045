//! The abstract machine: what each line does to a host and its pools, and the laws of its runs
//! (docs/MODEL.md, "The machine").
#![tactic(auto)]

mod answers;
mod device;
mod laws;
mod runs;
mod stops;

pub use answers::good_member_answers;
pub use device::HostDevice;
pub use laws::{
    creates_begin_a_pool, hosts_stay_fit, imports_find_the_pool, lines_follow_each_pool,
};
pub use runs::{runs_keep_each_pool, stops_keep_each_pool};
pub use stops::stops_may_come_within_a_line;
