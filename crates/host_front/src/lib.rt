//! The front: a script's bytes in, its replies' bytes out (docs/MODEL.md, "A run").
#![tactic(auto)]

mod away;
mod create;
mod entry;
mod found;
mod host;
mod import;
mod input;
mod output;
mod read;
mod reading;
mod script;
mod status;
mod stop;
mod sync;
mod write;

pub use entry::run;
pub use found::{HOST_DEVICES, host_device};
pub use host::Host;
pub use host_machine::HostDevice;
pub use status::Status;
