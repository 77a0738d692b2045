//! The next record, drawn up before any device is written: all memory of a commit is taken here.
ghost use Rattle.std.specs.Prelude.{◌≡◌, ◌+◌, ◌^◌, ◌<◌, ℕ, IfOk, length};

use crate::Pool;
use crate::pair::Pair;
use config_codec::PART_BYTES;
use mp_base::{Group, MemFault, Ranges};

/// The tree behind the draw of the next number, its logs as they are recorded, and room for the configuration.
#[derive(Drop)]
pub(crate) struct Draft {
    pub(crate) pair: Pair,
    pub(crate) outline: Outline,
}

/// The leaves' logs as they are recorded, and room for the configuration's bytes.
#[derive(Drop)]
pub(crate) struct Outline {
    pub(crate) first_log: Ranges,
    pub(crate) second_log: Ranges,
    pub(crate) part: Vec<u8>,
    ghost room: { length part.items ≡ 114688 },
}

impl Pool {
    ghost use Rattle.pool_core.specs.Drafts.{IsDraft, HasLogs};
    ghost use Rattle.pool_core.specs.Keeping.{Represents};
    ghost use Rattle.pool_core.specs.State.{PoolState};

    // Draws up the tree and the logs of the next record.
    pub(crate) fn draft(&self) -> Result<Draft, MemFault>
        requires { self.now.number.0 < 2 ^ 62 }
        ensures { IfOk result (IsDraft self.now) }
    {
        let number = Group(self.number.0 + 1);
        let pair = self.pair.drawn(self.alloc, number)?;
        let outline = Outline::new(self.alloc, &pair)?;
        Ok(Draft { pair, outline })
    }
}

impl Outline {
    ghost use Rattle.pool_core.specs.Drafts.{HasLogs};

    // Room for the record of a pool with this tree.
    pub(crate) fn new(alloc: std::alloc::Global, pair: &Pair) -> Result<Outline, MemFault>
        ensures { IfOk result (HasLogs pair.now) }
    {
        Ok(Outline {
            first_log: pair.first().log.to_ranges(alloc)?,
            second_log: pair.second().log.to_ranges(alloc)?,
            part: vec![in alloc; 0; PART_BYTES]?,
        })
    }
}
