//! Writes: a block is accepted into the open group, and stands in memory until a sync.
ghost use Rattle.std.specs.Prelude.{◌≡◌, ℕ, length};

use crate::Pool;
use mp_base::{Block, Refusal};

impl Pool {
    ghost use Rattle.pool_core.specs.State.{PoolState};
    ghost use Rattle.pool_core.specs.Keeping.{Represents, IsSeated};
    ghost use Rattle.pool_core.specs.Writing.{Puts};

    /// Accepts a block at an address. It is committed by the next sync that answers `Ok`.
    pub fn put(&mut self, address: u64, block: &[u8]) -> Result<(), Refusal>
        requires { length block.now ≡ 4096 }
        ensures pair { self.new.pair ≡ self.old.pair }
        ensures seated { (size : ℕ → ℕ) → IsSeated size self.old → IsSeated size self.new }
        ensures put { (s : PoolState) → Represents self.old s → Puts s address block.now self.new result }
    {
        let blocks = self.blocks;
        if address >= blocks {
            return Err(Refusal::BadAddress { limit: blocks });
        }
        let copy = match Block::from_slice(self.alloc, block) {
            Ok(copy) => copy,
            Err(_) => return Err(Refusal::Memory),
        };
        self.writes[address as usize] = Some(copy);
        Ok(())
    }
}
