//! Leaves that are taken offline and come back by a line, and the logs of what each misses.
ghost use Rattle.std.specs.Prelude.{◌≡◌, ℕ, List, Some, IfOk, map};
ghost use Rattle.group_set.specs.Groups.{holds};
ghost use Rattle.group_set.specs.Ranges.{ranges_upto};
ghost use Rattle.pool_core.specs.Away.{is_away, is_offline};
ghost use Rattle.pool_core.specs.Pairs.{IsLoggedTo};

use crate::Pool;
use bank_core::Bank;
use label_store::identity;
use mp_base::{Guid, MemFault, Name, Ranges, Refusal};
use std::alloc::Global;
use vdev_tree::{LeafVdev, State};

/// The sectors of a device that aren't data sectors: those of its labels.
const LABEL_SECTORS: u64 = 256;

/// The log of a leaf: the groups of which it lacks a valid copy, with the name of its device.
#[derive(Drop)]
pub struct LeafLog {
    pub name: Name,
    pub log: Ranges,
}

impl Pool {
    ghost use Rattle.pool_core.specs.Away.{IsOffline, IsOwnDevice, leaf_named};
    ghost use Rattle.pool_core.specs.Done.{Onlines, shown_logs};
    ghost use Rattle.pool_core.specs.Keeping.{Represents, IsSeated, Stands};
    ghost use Rattle.pool_core.specs.Naming.{leaf_of};
    ghost use Rattle.pool_core.specs.State.{LeafState, PoolState, leaves};

    /// Takes the leaf on the device of this name offline, with `temporary` only until the next opening. `NoVdev` comes
    /// where no leaf has the name, and `Required` exactly where some group could be read from no other leaf of the top.
    pub fn offline(&mut self, name: &Name, temporary: bool) -> Result<(), Refusal>
        ensures seated { (size : ℕ → ℕ) → IsSeated size self.old → IsSeated size self.new }
        ensures offline { (s : PoolState) → Represents self.old s
            → (next : PoolState) × Represents self.new next × IsOffline s name.now temporary next result }
    {
        let Some(at) = self.pair.named(name) else {
            return Err(Refusal::NoVdev);
        };
        if !self.is_offline(at) {
            if let Some(group) = self.pair.required(at) {
                return Err(Refusal::Required { group });
            }
        }
        self.pair.take_offline(at, temporary);
        Ok(())
    }

    /// Brings the leaf on the device of this name back, whose number in the bank this is. A leaf that isn't away is marked,
    /// and its device isn't read. `TooSmall` comes where the device lacks the room of its top, `DeviceFault` where a read of
    /// its labels failed and its identity wasn't found, and `WrongLabel` where all were read and none gives it. `NoVdev`
    /// comes where no leaf has the name.
    pub fn online<B: Bank>(&mut self, bank: &mut B, name: &Name, dev: u32) -> Result<State, Refusal>
        requires own { (s : PoolState) → Stands self.old.pair s → IsOwnDevice s name.now dev }
        ensures size { (d : ℕ) → (B.view bank.new).size d ≡ (B.view bank.old).size d }
        ensures numbers { (other : List ℕ) → (B.view bank.new).number_of other ≡ (B.view bank.old).number_of other }
        ensures lookups { (B.view bank.new).lookup_faults ≡ (B.view bank.old).lookup_faults }
        ensures seated { IsSeated (B.view bank.old).size self.old → IsSeated (B.view bank.old).size self.new }
        ensures online { (s : PoolState) → Represents self.old s
            → Onlines (B.view bank.old).size s (leaf_named name.now (leaves s)) dev (B.view bank.old).told (B.view bank.new).told (B.view bank.old).faults (B.view bank.new).faults self.new result }
    {
        let Some(at) = self.pair.named(name) else {
            return Err(Refusal::NoVdev);
        };
        let state = self.state_of(at);
        if !is_away(state) {
            self.pair.mark(at);
            return Ok(state);
        }
        let need = self.pair.sectors() + LABEL_SECTORS;
        let has = bank.sectors(dev);
        if has < need {
            return Err(Refusal::TooSmall { need, has });
        }
        match identity(bank, dev, self.pool, at) {
            Ok(true) => {
                self.pair.bring(at, dev);
                Ok(State::Online)
            }
            Ok(false) => Err(Refusal::WrongLabel { member: at }),
            Err(_) => Err(Refusal::DeviceFault { member: at }),
        }
    }

    /// The log of each leaf, in tree order.
    pub fn logs(&self) -> Result<Vec<LeafLog>, MemFault>
        ensures { (s : PoolState) → Represents self.now s → IfOk result (λ logs. map (λ log. (log.name, log.log)) logs.items ≡ shown_logs s) }
    {
        let mut logs = Vec::with_capacity(self.alloc, 2)?;
        logs.push(leaf_log(self.alloc, self.pair.first())?)?;
        logs.push(leaf_log(self.alloc, self.pair.second())?)?;
        Ok(logs)
    }

    // The state of the leaf of this number, which is one of the two.
    fn state_of(&self, at: Guid) -> State
        ensures { (s : PoolState) (leaf : LeafState) → Represents self.now s → leaf_of (leaves s) at ≡ Some leaf → result ≡ leaf.state }
    {
        if self.pair.first().guid == at {
            self.pair.first().state
        } else {
            self.pair.second().state
        }
    }

    fn is_offline(&self, at: Guid) -> bool
        ensures { (s : PoolState) (leaf : LeafState) → Represents self.now s → leaf_of (leaves s) at ≡ Some leaf → result ≡ is_offline leaf.state }
    {
        self.state_of(at) == State::Offline
    }
}

fn is_away(state: State) -> bool
    ensures { result ≡ is_away state }
{
    match state {
        State::Offline | State::Removed | State::Unavail => true,
        State::Online | State::Degraded | State::Faulted => false,
    }
}

fn leaf_log(alloc: Global, leaf: &LeafVdev) -> Result<LeafLog, MemFault>
    ensures name { IfOk result (λ log. log.name ≡ leaf.now.name) }
    ensures log { IfOk result (λ log. (n : ℕ) → IsLoggedTo n leaf.now → log.log ≡ ranges_upto (holds leaf.now.log) n) }
{
    Ok(LeafLog {
        name: leaf.name.copy(alloc)?,
        log: leaf.log.to_ranges(alloc)?,
    })
}
