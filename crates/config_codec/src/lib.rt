//! The bytes of a pool's configuration (docs/FORMATS.md, "Configuration").
#![tactic(auto)]

mod config;
mod cursor;
mod decoding;
mod encoding;
mod flags;
mod laws;
mod parts;
mod pieces;
mod unread;
mod validity;

pub use config::{Config, KeptState, LeafConfig, Pointer};
pub use decoding::decode;
pub use encoding::{PART_BYTES, encode_into};
pub use laws::{each_has_one_spelling, validity_is_tested};
pub use parts::{LeafParts, Parts};
