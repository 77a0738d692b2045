//! The host of open pools, line by line (docs/MODEL.md, "The host and its runs").
#![tactic(auto)]

mod device;
mod freeze;
mod host;
mod laws;
mod logs;
mod names;
mod offline;
mod read;
mod sync;
mod turn;
mod write;

pub use device::HostDevice;
pub use host::{Host, Refused};
pub use laws::lines_are_runs;
