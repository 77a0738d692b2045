//! A freeze: the open group gets its number, its places and its board.
ghost use Rattle.std.specs.Prelude.{◌≡◌, ◌⊎◌, ℕ, ◌+◌, ◌^◌, ◌<◌, ◌≤◌, true, Err, length, is_some, All, IfOk, IfErr, OnOk};
ghost use Rattle.dtl_rules.specs.Widening.{leaves_of};
ghost use Rattle.pool_codec.specs.Codecs.{pool_codec};
ghost use Rattle.pool_moves.specs.LineRows.{RowFreezeLine};
ghost use Rattle.pool_moves.specs.States.{PoolState};
ghost use Rattle.open_pool.specs.Freezing.{FreezesParts, RefusesParts, why_says};

use crate::Pool;
use block_map::BlockMap;
use mp_base::{Group, Guid, MemFault};
use std::alloc::Global;
use std::mem::replace;
use txg_engine::{Frozen, Open, Pins, freeze};
use vdev_tree::Top;

/// Groups are frozen while the highest number is below this: their further rounds have numbers up to 2^62 then.
pub const LAST_NUMBER: u64 = (1 << 62) - 64;

/// Why no group is frozen.
#[derive(Clone, Copy, Debug, PartialEq, Eq)]
pub enum FreezeFault {
    /// A group is frozen already.
    InFlight { group: Group },
    /// The highest number isn't below the limit. The count is the number that would be drawn.
    NoNumber { limit: u64, count: u64 },
    /// This top, the first in order, has no leaf that may be written. The group has the number that would be drawn.
    NoBoard { group: Group, top: Guid },
    /// Its blocks and the pages above them need so many places, and fewer are free and not pinned.
    NoSpace { need: u64, free: u64 },
    /// There was no memory.
    Memory,
}

impl From<MemFault> for FreezeFault {
    ghost use Rattle.std.specs.Prelude.{◌≡◌};
    ghost use Rattle.open_pool.specs.declared.freeze.FreezeFault.TheVariants.{Memory};

    ghost from_gives = { λ _ e. e ≡ Memory };

    fn from(_: MemFault) -> FreezeFault {
        FreezeFault::Memory
    }
}

impl Pool {
    ghost use Rattle.open_pool.specs.Answering.{Answers, OutOfMemory};
    ghost use Rattle.open_pool.specs.Freezing.{freeze_says};
    ghost use Rattle.open_pool.specs.Here.{AreHere};
    ghost use Rattle.open_pool.specs.State.{Stands};

    /// Freezes the open group, and answers the number that was drawn. Writes that come later go into the next one. At `Err`
    /// nothing has changed: a group is frozen, there is no number, a top has no leaf that may be written, there are too few
    /// places, in this order, or there was no memory.
    pub fn freeze(&mut self) -> Result<Group, FreezeFault>
        ensures row { (s : PoolState) → Stands self.old s
            → Answers (RowFreezeLine pool_codec s) freeze_says result s self.new
            ⊎ OutOfMemory (Err FreezeFault.Memory) result s self.new }
        ensures here { (size : ℕ → ℕ) → AreHere size self.old.tops → AreHere size self.new.tops }
        ensures frozen { OnOk result (is_some self.new.frozen ≡ true) }
    {
        self.keeps_its_form();
        self.map.keeps_its_form();
        if let Some(frozen) = &self.frozen {
            let group = frozen.numbers().first;
            return Err(FreezeFault::InFlight { group });
        }
        let count = self.highest.0 + 1;
        if self.highest.0 >= LAST_NUMBER {
            let limit = LAST_NUMBER;
            return Err(FreezeFault::NoNumber { limit, count });
        }
        let number = Group(count);
        let frozen = freeze_parts(
            self.alloc,
            &mut self.open,
            &mut self.map,
            &mut self.tops,
            &mut self.pins,
            number,
        )?;
        frozen.keeps_its_form();
        self.frozen = Some(frozen);
        self.highest = number;
        Ok(number)
    }
}

// Freezes the open group over these parts of a pool. An empty one comes in its place.
pub(crate) fn freeze_parts(
    alloc: Global,
    group: &mut Open,
    map: &mut BlockMap,
    tops: &mut Vec<Top>,
    pins: &mut Pins,
    number: Group,
) -> Result<Frozen, FreezeFault>
    requires volume { All (λ write. write.addr < map.old.blocks) group.old.writes }
    requires tops { length tops.old.items ≤ 8 }
    requires few { length (leaves_of tops.old.items) ≤ 32 }
    requires low { 1 ≤ number.0 }
    requires high { number.0 + 64 ≤ 2 ^ 62 }
    ensures ok { IfOk result (λ frozen. FreezesParts number
        (record { unfrozen = group.old; map = map.old; pins = pins.old; trees = tops.old.items })
        (record { unfrozen = group.new; map = map.new; pins = pins.new; trees = tops.new.items }) frozen) }
    ensures err { IfErr result (λ why. RefusesParts number
        (record { unfrozen = group.old; map = map.old; pins = pins.old; trees = tops.old.items })
        (record { unfrozen = group.new; map = map.new; pins = pins.new; trees = tops.new.items }) why) }
{
    let next = Open::new(alloc)?;
    let writes = replace(group, next);
    match freeze(alloc, writes, map, tops, pins, number) {
        Ok(frozen) => Ok(frozen),
        Err(unfrozen) => {
            *group = unfrozen.group;
            Err(why_not(unfrozen.why, number))
        }
    }
}

fn why_not(why: txg_engine::FreezeFault, group: Group) -> FreezeFault
    ensures { result ≡ why_says group why }
{
    match why {
        txg_engine::FreezeFault::NoBoard { top } => FreezeFault::NoBoard { group, top },
        txg_engine::FreezeFault::NoRoom { need, free } => FreezeFault::NoSpace { need, free },
        txg_engine::FreezeFault::Memory => FreezeFault::Memory,
    }
}
