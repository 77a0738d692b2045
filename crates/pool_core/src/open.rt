//! The opening of a pool: the newest record is looked for, and committed again before anything is read by it.
ghost use Rattle.std.specs.Prelude.{◌≡◌, ◌^◌, ℕ, ◌+◌, ◌<◌, ◌≤◌, List, Option, Some, IfOk, IfSome, OnErr, slice_get};
ghost use Rattle.config_codec.specs.Fields.{config_fields};
ghost use Rattle.config_codec.specs.Validity.{IsValid};
ghost use Rattle.label_store.specs.Newest.{ReadsOnly};
ghost use Rattle.mp_base.specs.Ranges.{Rises};
ghost use Rattle.pool_core.specs.Done.{Seeks, Identifies};
ghost use Rattle.pool_core.specs.Keeping.{IsLeaf, Represents};
ghost use Rattle.pool_core.specs.Opening.{IsCommitted, found_as, found_state, leaf_on};
ghost use Rattle.pool_core.specs.State.{Version, has_nobody};
ghost use Rattle.pool_core.specs.Steps.{LooksFor};

use crate::Pool;
use crate::draft::Draft;
use crate::pair::Pair;
use crate::pool::nothing;
use crate::rule::ConfigRule;
use crate::sync::flush_all;
use bank_core::Bank;
use config_codec::{Config, KeptState, LeafConfig, decode};
use group_set::GroupSet;
use label_store::{identity, newest};
use mp_base::{Group, MemFault, Name, Refusal};
use std::alloc::Global;
use vdev_tree::{Counts, LeafVdev, State};

/// The counts of a leaf of which nothing failed yet.
pub(crate) const NO_COUNTS: Counts = Counts {
    reads: 0,
    writes: 0,
    mismatches: 0,
};

/// The configuration of the newest record of this name that is verified on one of these devices; of two
/// with one number that of the first device. `None` comes exactly where no record of the name is verified
/// by what was read, and a label's sector is left out only where a read of it failed.
pub fn seek<B: Bank>(
    alloc: Global,
    bank: &mut B,
    devs: &[u32],
    name: &Name,
) -> Result<Option<Config>, MemFault>
    requires devices { (i dev : ℕ) → slice_get devs.now i ≡ Some dev → 320 ≤ (B.view bank.old).size dev }
    ensures size { (d : ℕ) → (B.view bank.new).size d ≡ (B.view bank.old).size d }
    ensures numbers { (other : List ℕ) → (B.view bank.new).number_of other ≡ (B.view bank.old).number_of other }
    ensures lookups { (B.view bank.new).lookup_faults ≡ (B.view bank.old).lookup_faults }
    ensures valid { IfOk result (λ found. IfSome found (λ config. IsValid (config_fields config))) }
    ensures seeks { IfOk result (λ found. Seeks (B.view bank.old).size devs.now name.now
        (B.view bank.old).told (B.view bank.new).told (B.view bank.old).faults (B.view bank.new).faults found) }
    ensures reads { OnErr result (ReadsOnly (B.view bank.old) (B.view bank.new)) }
{
    match newest::<B, ConfigRule>(alloc, bank, devs, name)? {
        Some(found) => decode(alloc, &found.blob),
        None => Ok(None),
    }
}

/// The leaves of the configuration whose devices have the identities that it gives them, each with its device. A
/// leaf without a device, at most so far, isn't looked for. Both are looked for, in tree order.
pub fn find_members<B: Bank>(
    bank: &mut B,
    config: &Config,
    seats: (Option<u32>, Option<u32>),
) -> (Option<u32>, Option<u32>)
    requires first_room { (d : ℕ) → seats.0 ≡ Some d → 320 ≤ (B.view bank.old).size d }
    requires second_room { (d : ℕ) → seats.1 ≡ Some d → 320 ≤ (B.view bank.old).size d }
    ensures size { (d : ℕ) → (B.view bank.new).size d ≡ (B.view bank.old).size d }
    ensures numbers { (other : List ℕ) → (B.view bank.new).number_of other ≡ (B.view bank.old).number_of other }
    ensures lookups { (B.view bank.new).lookup_faults ≡ (B.view bank.old).lookup_faults }
    ensures first { (d : ℕ) → result.0 ≡ Some d → seats.0 ≡ Some d }
    ensures second { (d : ℕ) → result.1 ≡ Some d → seats.1 ≡ Some d }
    ensures identifies { Identifies (B.view bank.old).size (config_fields config.now) seats
        (B.view bank.old).told (B.view bank.new).told (B.view bank.old).faults (B.view bank.new).faults result }
{
    let first = find_member(bank, config, &config.first, seats.0);
    let second = find_member(bank, config, &config.second, seats.1);
    (first, second)
}

// The leaf's device, where it has one that has its identity.
fn find_member<B: Bank>(
    bank: &mut B,
    config: &Config,
    leaf: &LeafConfig,
    seat: Option<u32>,
) -> Option<u32>
    requires room { (d : ℕ) → seat ≡ Some d → 320 ≤ (B.view bank.old).size d }
    ensures size { (d : ℕ) → (B.view bank.new).size d ≡ (B.view bank.old).size d }
    ensures numbers { (other : List ℕ) → (B.view bank.new).number_of other ≡ (B.view bank.old).number_of other }
    ensures lookups { (B.view bank.new).lookup_faults ≡ (B.view bank.old).lookup_faults }
    ensures same { (d : ℕ) → result ≡ Some d → seat ≡ Some d }
    ensures looks { LooksFor (config_fields config.now) leaf.now seat (B.view bank.old).size
        (B.view bank.old).told (B.view bank.new).told (B.view bank.old).faults (B.view bank.new).faults result }
{
    let dev = seat?;
    match identity(bank, dev, config.pool, leaf.member) {
        Ok(true) => Some(dev),
        _ => None,
    }
}

impl Pool {
    ghost use Rattle.pool_core.specs.Done.{OpensIf};
    ghost use Rattle.pool_core.specs.Keeping.{IsSeated};
    ghost use Rattle.pool_core.specs.State.{last_number};

    /// Opens the pool of this configuration, with its leaves on the devices that have their identities, where
    /// they were found: flushes the readable ones, and commits the record again over them under the next number by
    /// one round. At `Suspended` with faults a device call failed; without faults no leaf is readable, and no call
    /// was made. There is no pool then; another opening finds the record again, or the next one.
    pub fn open<B: Bank>(
        alloc: Global,
        bank: &mut B,
        config: Config,
        found: (Option<u32>, Option<u32>),
    ) -> Result<Pool, Refusal>
        requires valid { IsValid (config_fields config) }
        requires number { config.number.0 < last_number }
        requires apart { (d : ℕ) → found.0 ≡ Some d → found.1 ≡ Some d → ⊥ }
        requires first_room { (d : ℕ) → found.0 ≡ Some d → config.sectors + 256 ≤ (B.view bank.old).size d }
        requires second_room { (d : ℕ) → found.1 ≡ Some d → config.sectors + 256 ≤ (B.view bank.old).size d }
        ensures size { (d : ℕ) → (B.view bank.new).size d ≡ (B.view bank.old).size d }
        ensures numbers { (other : List ℕ) → (B.view bank.new).number_of other ≡ (B.view bank.old).number_of other }
        ensures lookups { (B.view bank.new).lookup_faults ≡ (B.view bank.old).lookup_faults }
        ensures seated { IfOk result (λ pool. IsSeated (B.view bank.old).size pool) }
        ensures opens { (committed : ℕ → Option Version) → IsCommitted (config_fields config) committed
            → OpensIf (has_nobody (found_state (config_fields config) committed found.0 found.1)) (B.view bank.old).size
            (found_state (config_fields config) committed found.0 found.1)
            (B.view bank.old).told (B.view bank.new).told (B.view bank.old).faults (B.view bank.new).faults result }
    {
        if finds_nobody(&config, found) {
            return Err(Refusal::Suspended {
                group: Group(config.number.0 + 1),
                top: config.mirror,
                faults: 0,
            });
        }
        let mut pool = match Pool::found(alloc, config, found) {
            Ok(pool) => pool,
            Err(_) => return Err(Refusal::Memory),
        };
        let Draft { pair, outline } = match pool.draft() {
            Ok(draft) => draft,
            Err(_) => return Err(Refusal::Memory),
        };
        let board = pool.pair.board();
        pool.draw_number(pair);
        let flushed = flush_all(bank, &board);
        pool.end_commit(bank, &board, outline, flushed)?;
        Ok(pool)
    }

    // The pool of this configuration in memory, with its leaves on these devices.
    fn found(
        alloc: Global,
        config: Config,
        found: (Option<u32>, Option<u32>),
    ) -> Result<Pool, MemFault>
        requires valid { IsValid (config_fields config) }
        requires apart { (d : ℕ) → found.0 ≡ Some d → found.1 ≡ Some d → ⊥ }
        ensures { (committed : ℕ → Option Version) → IsCommitted (config_fields config) committed
            → IfOk result (λ pool. Represents pool (found_state (config_fields config) committed found.0 found.1)) }
    {
        let Config {
            pool,
            name,
            blocks,
            number,
            next_member,
            pointers,
            sectors,
            mirror,
            first,
            second,
        } = config;
        let first = leaf_on(alloc, first, found.0)?;
        let second = leaf_on(alloc, second, found.1)?;
        let pair = Pair::new(alloc, mirror, sectors, first, second)?;
        let writes = nothing(alloc, pointers.len())?;
        Ok(Pool {
            alloc,
            pool,
            name,
            blocks,
            number,
            next_member,
            pointers,
            pair,
            writes,
        })
    }
}

// Whether no leaf of the record is readable, with its leaves where they were found.
fn finds_nobody(config: &Config, found: (Option<u32>, Option<u32>)) -> bool
    ensures { (committed : ℕ → Option Version) → result ≡ has_nobody (found_state (config_fields config.now) committed found.0 found.1) }
{
    !found_as(found.0, config.first.kept).is_up() && !found_as(found.1, config.second.kept).is_up()
}

// The leaf of a record, on the device that has its identity.
fn leaf_on(alloc: Global, leaf: LeafConfig, dev: Option<u32>) -> Result<LeafVdev, MemFault>
    requires { Rises 1 (2 ^ 62) leaf.log }
    ensures leaf { IfOk result (λ v. IsLeaf v (leaf_on leaf dev)) }
    ensures counts { IfOk result (λ v. v.counts ≡ record { reads = 0; writes = 0; mismatches = 0 }) }
{
    Ok(LeafVdev {
        guid: leaf.member,
        name: leaf.name,
        dev,
        state: found_as(dev, leaf.kept),
        log: GroupSet::from_ranges(alloc, leaf.log.as_slice())?,
        settled: GroupSet::new(alloc),
        marked: leaf.marked,
        temporary: false,
        counts: NO_COUNTS,
    })
}

// The state of a leaf whose identity was found, or wasn't.
fn found_as(dev: Option<u32>, kept: KeptState) -> State
    ensures { result ≡ found_as dev kept }
{
    if dev.is_none() {
        return State::Unavail;
    }
    match kept {
        KeptState::Online => State::Online,
        KeptState::Offline => State::Offline,
        KeptState::Faulted => State::Faulted,
        KeptState::Degraded => State::Degraded,
    }
}
