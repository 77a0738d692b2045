//! The making of a pool on two devices.
ghost use Rattle.std.specs.Prelude.{◌≡◌, ◌≢◌, ℕ, ◌<◌, ◌≤◌, List, Option, IfOk};
ghost use Rattle.pool_core.specs.Keeping.{IsLeaf};
ghost use Rattle.pool_core.specs.Making.{top_sectors};
ghost use Rattle.pool_core.specs.State.{new_leaf};

use crate::Pool;
use crate::draft::Outline;
use crate::open::NO_COUNTS;
use crate::pair::Pair;
use crate::pool::nothing;
use bank_core::Bank;
use group_set::GroupSet;
use label_store::stamp;
use mp_base::{Group, Guid, MemFault, Name};
use std::alloc::Global;
use vdev_tree::{LeafVdev, State};

/// The most data sectors that a configuration gives a top.
const MOST_SECTORS: u64 = 1_048_320;

/// The sectors of a device that aren't data sectors: those of its labels.
const LABEL_SECTORS: u64 = 256;

/// The member numbers of a new pool's mirror and of its leaves, and the first one that isn't drawn.
const MIRROR: Guid = Guid(1);

const FIRST: Guid = Guid(2);

const SECOND: Guid = Guid(3);

const NEXT_MEMBER: u64 = 4;

/// A device that becomes a leaf: its name, and its number in the bank.
#[derive(Drop)]
pub struct NewLeaf {
    pub name: Name,
    pub dev: u32,
}

/// Why no pool was made.
#[derive(Drop)]
pub enum CreateFault {
    /// There was no memory, and no device was touched.
    Memory,
    /// A call on the device of this name failed, the first in tree order.
    Device(Name),
}

impl Pool {
    ghost use Rattle.pool_core.specs.Keeping.{Represents, IsSeated};
    ghost use Rattle.pool_core.specs.Making.{CreatesIf, made_state};

    /// Makes a pool of `blocks` blocks of zeros, 1 to 32 of them: stamps both devices, up to the first
    /// that fails, and commits record 1 by one round. `pool` is the pool's number, at least 1. At `Ok`
    /// each crash leaves a device on which an opening finds the pool; after `Device` there is no pool,
    /// and the devices may hold stamps or labels.
    pub fn create<B: Bank>(
        alloc: Global,
        bank: &mut B,
        name: Name,
        pool: Guid,
        blocks: u64,
        first: NewLeaf,
        second: NewLeaf,
    ) -> Result<Pool, CreateFault>
        requires some { 0 < blocks }
        requires few { blocks ≤ 32 }
        requires number { 1 ≤ pool.0 }
        requires two_names { first.name ≢ second.name }
        requires two_devices { first.dev ≢ second.dev }
        requires first_room { 320 ≤ (B.view bank.old).size first.dev }
        requires second_room { 320 ≤ (B.view bank.old).size second.dev }
        ensures size { (d : ℕ) → (B.view bank.new).size d ≡ (B.view bank.old).size d }
        ensures numbers { (other : List ℕ) → (B.view bank.new).number_of other ≡ (B.view bank.old).number_of other }
        ensures lookups { (B.view bank.new).lookup_faults ≡ (B.view bank.old).lookup_faults }
        ensures seated { IfOk result (λ made. IsSeated (B.view bank.old).size made) }
        ensures creates { CreatesIf (B.view bank.old).size name pool blocks (first.name, first.dev) (second.name, second.dev)
            (B.view bank.old).told (B.view bank.new).told (B.view bank.old).faults (B.view bank.new).faults result }
    {
        let made = match Pool::new(alloc, bank, name, pool, blocks, &first, &second) {
            Ok(made) => made,
            Err(_) => return Err(CreateFault::Memory),
        };
        let outline = match Outline::new(alloc, &made.pair) {
            Ok(outline) => outline,
            Err(_) => return Err(CreateFault::Memory),
        };
        if stamp(bank, first.dev, pool, FIRST).is_err() {
            return Err(CreateFault::Device(first.name));
        }
        if stamp(bank, second.dev, pool, SECOND).is_err() {
            return Err(CreateFault::Device(second.name));
        }
        let board = made.pair.board();
        let mut stayed = [true; 2];
        made.commit_round(bank, &board, outline, &mut stayed);
        if !stayed[0] {
            return Err(CreateFault::Device(first.name));
        }
        if !stayed[1] {
            return Err(CreateFault::Device(second.name));
        }
        Ok(made)
    }

    // The new pool in memory.
    fn new<B: Bank>(
        alloc: Global,
        bank: &B,
        name: Name,
        pool: Guid,
        blocks: u64,
        first: &NewLeaf,
        second: &NewLeaf,
    ) -> Result<Pool, MemFault>
        requires some { 0 < blocks }
        requires few { blocks ≤ 32 }
        requires number { 1 ≤ pool.0 }
        requires two_names { first.now.name ≢ second.now.name }
        requires two_devices { first.now.dev ≢ second.now.dev }
        requires first_room { 320 ≤ (B.view bank.now).size first.now.dev }
        requires second_room { 320 ≤ (B.view bank.now).size second.now.dev }
        ensures seated { IfOk result (λ made. IsSeated (B.view bank.now).size made) }
        ensures state { IfOk result (λ made. Represents made
            (made_state (B.view bank.now).size name pool blocks (first.now.name, first.now.dev) (second.now.name, second.now.dev))) }
    {
        // A configuration is valid only with names that are names.
        name.spells_a_name();
        first.name.spells_a_name();
        second.name.spells_a_name();
        let sectors = top_sectors(bank.sectors(first.dev), bank.sectors(second.dev));
        let one = new_leaf(alloc, FIRST, first)?;
        let other = new_leaf(alloc, SECOND, second)?;
        Ok(Pool {
            alloc,
            pool,
            name,
            blocks,
            number: Group(1),
            next_member: NEXT_MEMBER,
            pointers: nothing(alloc, blocks as usize)?,
            pair: Pair::new(alloc, MIRROR, sectors, one, other)?,
            writes: nothing(alloc, blocks as usize)?,
        })
    }
}

// A leaf as it is made: online, on its device, with an empty log.
fn new_leaf(alloc: Global, guid: Guid, leaf: &NewLeaf) -> Result<LeafVdev, MemFault>
    ensures leaf { IfOk result (λ v. IsLeaf v (new_leaf guid.0 (leaf.now.name, leaf.now.dev))) }
    ensures counts { IfOk result (λ v. v.counts ≡ record { reads = 0; writes = 0; mismatches = 0 }) }
{
    Ok(LeafVdev {
        guid,
        name: leaf.name.copy(alloc)?,
        dev: Some(leaf.dev),
        state: State::Online,
        log: GroupSet::new(alloc),
        settled: GroupSet::new(alloc),
        marked: false,
        temporary: false,
        counts: NO_COUNTS,
    })
}

// The data sectors of a top on two devices of so many sectors.
fn top_sectors(first: u64, second: u64) -> u64
    requires first { 320 ≤ first }
    requires second { 320 ≤ second }
    ensures { result ≡ top_sectors first second }
{
    (first.min(second) - LABEL_SECTORS).min(MOST_SECTORS)
}
