//! The front of a script: its bytes in, its reply lines' bytes out (docs/MODEL.md, "A run").
#![tactic(auto)]

mod answer;
mod entry;
mod found;
mod input;
mod output;
mod read;
mod replies;
mod script;
mod status;
mod stop;
mod verbs;

pub use entry::run;
pub use found::{HOST_DEVICES, host_device};
pub use status::Status;
