//! One pool: a volume of blocks on a mirror of devices (docs/MODEL.md, "The pool").
#![tactic(auto)]

mod accessors;
mod away;
mod board;
mod commit;
mod create;
mod draft;
mod number;
mod open;
mod pair;
mod pool;
mod read;
mod round;
mod rule;
mod sync;
mod write;

pub use away::LeafLog;
pub use create::{CreateFault, NewLeaf};
pub use number::pool_number;
pub use open::{find_members, seek};
pub use pool::{MOST_BLOCKS, Pool};
pub use rule::ConfigRule;
