//! Lines: what a line asks, and the text of a reply (docs/FORMATS.md, "Lines" and "Replies"). It knows of no pool.
#![tactic(auto)]

mod leaves;
mod line;
mod logs;
mod refusal;
mod refusing;
mod reply;
mod request;
mod text;
mod tops;
mod vdevs;
mod words;

pub use leaves::{LeafLog, LeafLogs, NamedLeaf, NamedLeaves};
pub use line::{asks_one_thing, read_line};
pub use refusal::{Holder, Refusal};
pub use reply::{Reply, Turned};
pub use request::{LineFault, Request};
pub use text::{told_block_is_data, write_reply};
pub use tops::{Names, Tops};
