//! Banks: the devices of a host, behind one trait. What a device holds, and what a crash may leave of
//! it, is told by a list of calls (docs/MODEL.md, "Devices").
#![tactic(auto)]

mod bank;
mod call;
mod crash;
mod device;
mod memory;
mod moment;
mod noting;
mod piece;
mod plan;
mod view;

pub use bank::{Bank, Fault, FindFault, SECTOR_BYTES};
pub use call::{CallKind, Damage, MemCall};
pub use device::MOST_SECTORS;
pub use memory::MemBank;
pub use moment::ImageChoice;
