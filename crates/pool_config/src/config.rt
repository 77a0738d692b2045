//! A configuration as it is kept.
use mp_base::{Group, Guid, Name, Pointer};
use vdev_tree::Top;

/// The configuration of a pool. Which are valid is `specs/Validity.antt`.
#[derive(Drop)]
pub struct Config {
    pub pool: Guid,
    pub name: Name,
    /// The volume's number of blocks.
    pub blocks: u64,
    /// The number of the group that it was committed with.
    pub number: Group,
    /// The member number that is drawn next.
    pub next_guid: u64,
    /// Where the map's page of level 3 stands; a hole where nothing was ever written.
    pub root: Pointer,
    pub tops: Vec<Top>,
    /// The names of the pool's spare devices, in the order in which they are tried.
    pub spares: Vec<Name>,
}
