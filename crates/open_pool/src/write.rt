//! Writes: a block is accepted into the open group, and stands in memory until its group is acknowledged.
ghost use Rattle.std.specs.Prelude.{◌≡◌, ◌⊎◌, ◌+◌, ◌≤◌, ◌<◌, Err, length, OnOk, IfErr};
ghost use Rattle.pool_moves.specs.AwayRows.{RowWrite};
ghost use Rattle.pool_moves.specs.States.{PoolState};

use crate::Pool;
use mp_base::MemFault;
use txg_engine::MOST_WRITES;

/// Why a block isn't taken.
#[derive(Clone, Copy, Debug, PartialEq, Eq)]
pub enum WriteFault {
    /// The address isn't below the volume's number of blocks.
    BadAddress { limit: u64 },
    /// The open and the frozen group have 4,096 addresses together, and this is none of them.
    Full,
    /// With this block the open group and the pages above it need so many places, and fewer are free and not pinned.
    NoSpace { need: u64, free: u64 },
    /// There was no memory.
    Memory,
}

impl From<MemFault> for WriteFault {
    ghost use Rattle.std.specs.Prelude.{◌≡◌};
    ghost use Rattle.open_pool.specs.declared.write.WriteFault.TheVariants.{Memory};

    ghost from_gives = { λ _ e. e ≡ Memory };

    fn from(_: MemFault) -> WriteFault {
        WriteFault::Memory
    }
}

impl Pool {
    ghost use Rattle.open_pool.specs.Answering.{Answers, OutOfMemory};
    ghost use Rattle.open_pool.specs.State.{Stands};
    ghost use Rattle.open_pool.specs.Writing.{write_says};

    /// Accepts a block of 4,096 bytes at an address. At `Ok` it is what a read answers from now on, and it is committed with its
    /// group, by the next `sync` that answers `Ok`. At `Err` nothing has changed.
    pub fn put(&mut self, addr: u64, block: &[u8]) -> Result<(), WriteFault>
        requires { length block.now ≡ 4096 }
        ensures row { (s : PoolState) → Stands self.old s
            → Answers (RowWrite s addr block.now) write_says result s self.new ⊎ OutOfMemory (Err WriteFault.Memory) result s self.new }
    {
        self.keeps_its_form();
        let limit = self.map.blocks();
        if addr >= limit {
            return Err(WriteFault::BadAddress { limit });
        }
        let is_new = !self.is_dirty(addr);
        if is_new && self.dirty == MOST_WRITES {
            return Err(WriteFault::Full);
        }
        self.check_space(addr)?;
        self.open.put(addr, block)?;
        self.dirty += usize::from(is_new);
        Ok(())
    }
}
