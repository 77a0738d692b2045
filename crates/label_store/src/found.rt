//! A record that was found.
use mp_base::{Group, Guid};

/// A verified record: the configuration's bytes, with its number and its pool.
#[derive(Drop)]
pub struct Found {
    pub number: Group,
    pub pool: Guid,
    pub blob: Vec<u8>,
}
