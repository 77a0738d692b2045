//! Commits of groups: the open group, its freeze, and the turns by which a frozen group comes onto the devices, whichever of
//! them fail (docs/MODEL.md, "Commits of groups").
#![tactic(auto)]

mod adopt;
mod board;
mod burn;
mod changes;
mod close_turn;
mod fails;
mod flush_turn;
mod freezing;
mod frozen;
mod item;
mod laws;
mod leave;
mod leaves;
mod members;
mod merge;
mod need;
mod open;
mod pins;
mod prepare;
mod room;
mod seat;
mod settle;
mod write;
mod write_turn;

pub use board::Board;
pub use close_turn::Closed;
pub use freezing::{FreezeFault, Unfrozen, freeze};
pub use frozen::Frozen;
pub use item::Item;
pub use laws::{groups_count_their_addresses, groups_seat_each_top};
pub use leaves::change_tops;
pub use open::{MOST_WRITES, Open};
pub use pins::Pins;
pub use seat::{MOST_LEAVES, Numbers, Seat, Suspended};
pub use write::Write;
