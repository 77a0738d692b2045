//! What a round writes.
ghost use Rattle.std.specs.Prelude.{◌≡◌, ◌%◌, ◌<◌, ◌≤◌, length, take};
ghost use Rattle.sha2.specs.Sha256.{sha256};
ghost use Rattle.bank_core.specs.Disk.{sector_size, sectors_in};

use mp_base::{Group, Guid};

/// The three phases of a round. Each is flushed before the next one begins: so whatever moment a stop
/// comes at, one pair of labels and the uberblock that fits it stand.
#[derive(Clone, Copy)]
pub(crate) enum Phase {
    /// The configuration, into the even labels.
    First,
    /// The uberblock, into every ring.
    Second,
    /// The configuration, into the odd labels.
    Third,
}

/// A configuration that is committed: whole sectors, which begin with so many bytes of it, and its sum.
#[derive(Drop)]
pub(crate) struct Round<'a> {
    pub(crate) pool: Guid,
    pub(crate) number: Group,
    pub(crate) blob: &'a [u8],
    pub(crate) config_bytes: usize,
    pub(crate) sum: [u8; 32],
    ghost whole: { length blob.now % sector_size ≡ 0 },
    ghost some: { 0 < length blob.now },
    ghost most: { sectors_in blob.now ≤ 28 },
    ghost summed: { sum ≡ sha256 (take config_bytes blob.now) },
}
