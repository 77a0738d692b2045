//! The words that every crate of mpool shares: names, blocks and numbers of things, refusals, and the
//! outside world as traits with counts of faults.
#![tactic(auto)]

mod block;
mod clock;
mod fault;
mod name;
mod number;
mod place;
mod range;
mod refusal;
mod sink;
mod source;

pub use block::{BLOCK_BYTES, Block};
pub use clock::{Clock, MemClock};
pub use fault::{Failed, MemFault};
pub use name::{Name, NameFault};
pub use number::{Group, Guid};
pub use place::{Key, Place, Pointer};
pub use range::{GroupRange, Ranges};
pub use refusal::{LeafSeen, PlaceRule, Refusal, Seen, SeenLeaves};
pub use sink::{MemSink, Sink};
pub use source::{MemSource, Source};
