//! Numbers of things.

/// The number of a group of writes that are committed together (a transaction group, txg): 1 to
/// 2^62. Numbers rise, and a pool never uses one twice in one run.
#[derive(Clone, Copy, Debug, PartialEq, Eq, PartialOrd, Ord)]
pub struct Group(pub u64);

/// The number of a vdev within its pool, counted from 1 as vdevs are made, or a pool's own number.
#[derive(Clone, Copy, Debug, PartialEq, Eq, PartialOrd, Ord)]
pub struct Guid(pub u64);
