//! The bytes of a pool's configuration, version 1: its tops with their trees, and its listed spares
//! (docs/FORMATS.md, "Configuration, version 1").
#![tactic(auto)]

mod config;
mod cursor;
mod decoding;
mod encoding;
mod flags;
mod laws;
mod members;
mod pieces;
mod reading;
mod trees;
mod unread;
mod validity;

pub use config::Config;
pub use decoding::decode;
pub use encoding::{PART_BYTES, encode, encode_into};
pub use laws::{a_tree_is_written_out, each_has_one_spelling, validity_is_tested};
