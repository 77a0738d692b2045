//! The devices of a host in files: just what the system's calls answer. What a file holds isn't told.
#![tactic(auto)]

mod bank;
mod file;
mod files;
mod host;
mod host_file;
mod opening;
mod pieces;

pub use bank::FileBank;
pub use host::{Host, Unheld};
pub use host_file::{FileId, HostFile};
