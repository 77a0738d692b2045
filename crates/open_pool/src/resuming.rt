//! The commit of an opening: the record that was read is committed again, under the next number.
ghost use Rattle.std.specs.Prelude.{◌≡◌, ℕ, true, false, is_some, is_ok, Ok, IfOk, IfErr};
ghost use Rattle.pool_moves.specs.CommitRows.{uncounts};
ghost use Rattle.pool_moves.specs.Moves.{steps};
ghost use Rattle.pool_moves.specs.States.{PoolState};
ghost use Rattle.open_pool.specs.Here.{AreHere};
ghost use Rattle.open_pool.specs.Resuming.{BeginsAs, RecommitsOrStops, TellsBy, lacking, uncounted, unended_as, unfrozen_as};
ghost use Rattle.open_pool.specs.State.{Stands};

use crate::freeze::{FreezeFault, freeze_parts};
use crate::sync::SyncFault;
use crate::{Pool, Reopened};
use bank_core::Bank;
use mp_base::Group;
use txg_engine::{Suspended, change_tops};
use vdev_tree::{Counts, LeafChange, LeafVdev};

/// Why a pool isn't opened, though its record was read.
#[derive(Clone, Copy, Debug, PartialEq, Eq)]
pub enum ResumeFault {
    /// The commit is suspended. It tells no failed call where the top had no readable leaf, so that nothing was begun.
    Suspended(Suspended),
    /// There was no memory, and no call was made.
    Memory,
}

impl Reopened {
    /// Commits the record again under the next number, by a group without keys. At `Ok` it is acknowledged, the counts of all
    /// leaves begin anew, and a resilver has started where a readable leaf owes a group. At `Err` the pool isn't opened, and
    /// another opening finds one of its records.
    pub fn resume<B: Bank>(self, bank: &mut B) -> Result<Pool, ResumeFault>
        requires { AreHere (B.view bank.old).size self.tops }
        ensures row { (s : PoolState) → Stands self s → RecommitsOrStops result s (B.view bank.old) (B.view bank.new) }
        ensures told { (s : PoolState) → Stands self s → IfErr result (λ why. TellsBy why (lacking s)) }
        ensures here { IfOk result (λ pool. (size : ℕ → ℕ) → AreHere size self.tops → AreHere size pool.tops) }
    {
        let mut pool = self.freeze()?;
        if let Err(fault) = pool.end_group(bank) {
            return Err(why_unended(fault));
        }
        pool.begin_counts();
        pool.start_resilver();
        Ok(pool)
    }

    // Freezes a group without keys. Whoever gets the pool ends that group, and it isn't open before.
    fn freeze(self) -> Result<Pool, ResumeFault>
        ensures row { (s : PoolState) → Stands self s → BeginsAs result s }
        ensures here { IfOk result (λ pool. (size : ℕ → ℕ) → AreHere size self.tops → AreHere size pool.tops) }
        ensures frozen { IfOk result (λ pool. is_some pool.frozen ≡ true) }
    {
        let Reopened {
            alloc,
            name,
            pool,
            next,
            number: read,
            mut map,
            mut pins,
            mut tops,
            spares,
            unfrozen: mut open,
            config,
        } = self;
        map.keeps_its_form();
        let number = Group(read.0 + 1);
        let frozen = match freeze_parts(alloc, &mut open, &mut map, &mut tops, &mut pins, number) {
            Ok(frozen) => frozen,
            Err(why) => return Err(why_unfrozen(why)),
        };
        frozen.keeps_its_form();
        Ok(Pool {
            alloc,
            name,
            pool,
            next,
            highest: number,
            read,
            map,
            pins,
            tops,
            spares,
            open,
            frozen: Some(frozen),
            dirty: 0,
            scan: None,
            config,
        })
    }
}

impl Pool {
    // The counts of all leaves begin anew.
    fn begin_counts(&mut self)
        requires { is_some self.old.frozen ≡ false }
        ensures counts { (s : PoolState) → Stands self.old s → Stands self.new (steps (uncounts s.core.leaves) s) }
        ensures here { (size : ℕ → ℕ) → AreHere size self.old.tops → AreHere size self.new.tops }
        ensures read { self.new.read ≡ self.old.read }
    {
        change_tops(&mut self.tops, &BeginCounts {});
    }
}

#[derive(Drop)]
struct BeginCounts {}

impl LeafChange for BeginCounts {
    ghost may = { λ _ _. Unit {0} };

    ghost changes = { λ _ old new. new ≡ uncounted old };

    fn change(&self, leaf: &mut LeafVdev) {
        leaf.counts = Counts {
            reads: 0,
            writes: 0,
            mismatches: 0,
        };
    }
}

// Why no group without keys is frozen: nothing but a top without a readable leaf, or want of memory, keeps from it.
fn why_unfrozen(why: FreezeFault) -> ResumeFault
    requires { is_ok (unfrozen_as why) ≡ true }
    ensures { unfrozen_as why ≡ Ok result }
{
    match why {
        FreezeFault::NoBoard { group, top } => {
            let faults = 0;
            ResumeFault::Suspended(Suspended { group, top, faults })
        }
        FreezeFault::Memory => ResumeFault::Memory,
        _ => unreachable!(),
    }
}

// How a group ended that isn't acknowledged: it is suspended.
fn why_unended(fault: SyncFault) -> ResumeFault
    requires { is_ok (unended_as fault) ≡ true }
    ensures { unended_as fault ≡ Ok result }
{
    match fault {
        SyncFault::Suspended(told) => ResumeFault::Suspended(told),
        _ => unreachable!(),
    }
}
