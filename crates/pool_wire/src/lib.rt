//! The wire: what a line asks, and the text of a reply (docs/FORMATS.md, "Lines" and "Replies").
#![tactic(auto)]

mod line;
mod logs;
mod reply;
mod request;
mod text;
mod words;

pub use line::{asks_one_thing, read_line};
pub use reply::{LeafLog, LeafLogs, NamedLeaf, NamedLeaves, Reply};
pub use request::{LineFault, Request};
pub use text::{told_block_is_data, write_reply};
