//! A sync: the frozen group is ended, and then the open one.
ghost use Rattle.std.specs.Prelude.{◌≡◌, ◌⊎◌, ℕ, true, false, Err, IfErr, is_some};
ghost use Rattle.pool_codec.specs.Codecs.{pool_codec};
ghost use Rattle.pool_moves.specs.LineRows.{EndsGroup, SyncOpen, RowSync};
ghost use Rattle.pool_moves.specs.States.{PoolState};

use crate::Pool;
use crate::freeze::FreezeFault;
use crate::turn::TurnDone;
use bank_core::Bank;
use mp_base::Group;
use txg_engine::Suspended;

/// Why a sync doesn't acknowledge what was written.
#[derive(Clone, Copy, Debug, PartialEq, Eq)]
pub enum SyncFault {
    /// The open group isn't frozen. A group that was frozen before is acknowledged.
    Unfrozen(FreezeFault),
    /// A group is suspended, and its writes stand in the open group again.
    Suspended(Suspended),
    /// There was no memory for the open group's commit. A group that was frozen before is acknowledged.
    Memory,
}

impl From<FreezeFault> for SyncFault {
    ghost use Rattle.std.specs.Prelude.{◌≡◌};
    ghost use Rattle.open_pool.specs.Syncing.{sync_fault};

    ghost from_gives = { λ fault e. e ≡ sync_fault fault };

    fn from(fault: FreezeFault) -> SyncFault {
        match fault {
            FreezeFault::Memory => SyncFault::Memory,
            fault => SyncFault::Unfrozen(fault),
        }
    }
}

impl From<Suspended> for SyncFault {
    ghost use Rattle.std.specs.Prelude.{◌≡◌};
    ghost use Rattle.open_pool.specs.declared.sync.SyncFault.TheVariants as syncs;

    ghost from_gives = { λ suspended e. e ≡ syncs.Suspended suspended };

    fn from(suspended: Suspended) -> SyncFault {
        SyncFault::Suspended(suspended)
    }
}

impl Pool {
    ghost use Rattle.open_pool.specs.Answering.{Does, OutOfMemory};
    ghost use Rattle.open_pool.specs.Here.{AreHere};
    ghost use Rattle.open_pool.specs.State.{Stands};
    ghost use Rattle.open_pool.specs.Syncing.{TellsOne, end_says, sync_says};

    /// Ends the frozen group, if there is one, and then freezes and ends the open one. At `Ok` everything that was written is
    /// acknowledged, in the record of this number. Where there was no memory and no group was frozen, nothing has changed.
    pub fn sync<B: Bank>(&mut self, bank: &mut B) -> Result<Group, SyncFault>
        requires { AreHere (B.view bank.old).size self.old.tops }
        ensures row { (s : PoolState) → Stands self.old s
            → Does (RowSync pool_codec (B.view bank.old).size s) sync_says result s self.new (B.view bank.old) (B.view bank.new)
            ⊎ ((OutOfMemory (Err SyncFault.Memory) result s self.new × ((B.view bank.new) ≡ (B.view bank.old))) × (is_some self.old.frozen ≡ false)) }
        ensures told { IfErr result TellsOne }
        ensures here { (size : ℕ → ℕ) → AreHere size self.old.tops → AreHere size self.new.tops }
    {
        if self.frozen.is_none() {
            return self.sync_open(bank);
        }
        self.end_group(bank)?;
        self.sync_open(bank)
    }

    // Freezes and ends the open group, where none is frozen.
    fn sync_open<B: Bank>(&mut self, bank: &mut B) -> Result<Group, SyncFault>
        requires idle { is_some self.old.frozen ≡ false }
        requires here { AreHere (B.view bank.old).size self.old.tops }
        ensures row { (s : PoolState) → Stands self.old s
            → Does (SyncOpen pool_codec (B.view bank.old).size s) sync_says result s self.new (B.view bank.old) (B.view bank.new)
            ⊎ (OutOfMemory (Err SyncFault.Memory) result s self.new × ((B.view bank.new) ≡ (B.view bank.old))) }
        ensures told { IfErr result TellsOne }
        ensures here { (size : ℕ → ℕ) → AreHere size self.old.tops → AreHere size self.new.tops }
    {
        self.freeze()?;
        self.end_group(bank)
    }

    // Makes turns of the frozen group up to its end.
    pub(crate) fn end_group<B: Bank>(&mut self, bank: &mut B) -> Result<Group, SyncFault>
        requires frozen { is_some self.old.frozen ≡ true }
        requires here { AreHere (B.view bank.old).size self.old.tops }
        ensures row { (s : PoolState) → Stands self.old s
            → Does (EndsGroup pool_codec (B.view bank.old).size s) end_says result s self.new (B.view bank.old) (B.view bank.new) }
        ensures told { IfErr result TellsOne }
        ensures here { (size : ℕ → ℕ) → AreHere size self.old.tops → AreHere size self.new.tops }
        ensures idle { is_some self.new.frozen ≡ false }
        ensures sizes { (B.view bank.new).size ≡ (B.view bank.old).size }
    {
        loop {
            if let TurnDone::Committed(number) = self.turn(bank)? {
                return Ok(number);
            }
        }
    }
}
