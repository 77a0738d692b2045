//! A pool on one mirror of two leaves. What its record says, its tree with the leaves' logs, and what was
//! written since the last commit stand in memory; the committed blocks stand on the devices.
ghost use Rattle.std.specs.Prelude.{◌≡◌, true, None, length, replicate, IfOk, IsTrue};
ghost use Rattle.config_codec.specs.Validity.{is_valid};
ghost use Rattle.pool_core.specs.Pairs.{AreApart, IsLoggedTo, fields_from, has_device};

use crate::pair::Pair;
use config_codec::Pointer;
use mp_base::{Block, Group, Guid, MemFault, Name};
use std::alloc::Global;

/// The most blocks of a volume, as long as its pointers stand in the configuration itself.
pub const MOST_BLOCKS: u64 = 32;

/// A pool: a volume of at most 32 blocks on a mirror of two leaves, each of which may be away.
#[derive(Drop)]
pub struct Pool {
    pub(crate) alloc: Global,
    pub(crate) pool: Guid,
    pub(crate) name: Name,
    pub(crate) blocks: u64,
    /// The number of the last record.
    pub(crate) number: Group,
    pub(crate) next_member: u64,
    pub(crate) pointers: Vec<Option<Pointer>>,
    pub(crate) pair: Pair,
    pub(crate) writes: Vec<Option<Block>>,
    ghost valid: { IsTrue (is_valid (fields_from pool name blocks number next_member pointers.items pair)) },
    ghost paired: { length writes.items ≡ length pointers.items },
    ghost apart: { AreApart pair },
    ghost first_log: { IsLoggedTo number.0 pair.first },
    ghost second_log: { IsLoggedTo number.0 pair.second },
    ghost first_dev: { has_device pair.first ≡ true },
    ghost second_dev: { has_device pair.second ≡ true },
}

impl Pool {
    ghost use Rattle.std.specs.Prelude.{◌<◌, Some, IfSome, slice_get};
    ghost use Rattle.std.specs.Option.{option_copied};

    // What was written at an address since the last commit.
    pub(crate) fn write_at(&self, at: usize) -> Option<&[u8]>
        requires { at < length self.now.writes.items }
        ensures is { slice_get self.now.writes.items at ≡ Some (option_copied result) }
        ensures whole { IfSome result (λ block. length block.now ≡ 4096) }
    {
        match &self.writes[at] {
            Some(block) => Some(block.as_bytes()),
            None => None,
        }
    }

    // Where the committed block of an address stands.
    pub(crate) fn pointer_at(&self, at: usize) -> Option<Pointer>
        requires { at < length self.now.writes.items }
        ensures is { slice_get self.now.pointers.items at ≡ Some result }
        ensures low { IfSome result (λ pointer. pointer.sector < 64) }
    {
        self.pointers[at]
    }
}

// A list of so many places with nothing there.
pub(crate) fn nothing<T>(alloc: Global, places: usize) -> Result<Vec<Option<T>>, MemFault>
where
    T: Drop,
    ensures { IfOk result (λ list. list.items ≡ replicate places None) }
{
    let mut list = Vec::with_capacity(alloc, places)?;
    for a in 0..places {
        list.push(None)?;
    }
    Ok(list)
}
