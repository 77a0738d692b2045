//! A configuration as it is kept.
use mp_base::{Group, Guid, Name, Ranges};

/// Where a committed block stands. Each address has two data sectors on each member of the top, 2a and
/// 2a + 1, counted from where the top's data begin; the block is in one of them.
#[derive(Clone, Copy, Debug, PartialEq, Eq)]
pub struct Pointer {
    /// The group that the block was written in.
    pub birth: Group,
    pub sector: u64,
    /// The block's SHA-256 (FIPS 180-4).
    pub sum: [u8; 32],
}

/// The state that a record keeps of a leaf; one that is away for another reason is recorded as `Online`.
#[derive(Clone, Copy, Debug, PartialEq, Eq)]
pub enum KeptState {
    Online,
    Offline,
    Faulted,
    Degraded,
}

/// A leaf of the mirror.
#[derive(Drop)]
pub struct LeafConfig {
    pub member: Guid,
    /// The name of its device.
    pub name: Name,
    pub kept: KeptState,
    /// Whether it is marked to come back.
    pub marked: bool,
    /// The groups of which it lacks a valid copy.
    pub log: Ranges,
}

/// The configuration of a pool whose one top is a mirror of two leaves. Which are valid is
/// `specs/Validity.antt`.
#[derive(Drop)]
pub struct Config {
    pub pool: Guid,
    pub name: Name,
    /// The volume's number of blocks.
    pub blocks: u64,
    /// The number of the group that it was committed with.
    pub number: Group,
    /// The member number that is drawn next.
    pub next_member: u64,
    /// One for each block of the volume; a block without a pointer is a hole.
    pub pointers: Vec<Option<Pointer>>,
    /// How many data sectors each member of the top has.
    pub sectors: u64,
    /// The member number of the mirror.
    pub mirror: Guid,
    pub first: LeafConfig,
    pub second: LeafConfig,
}
