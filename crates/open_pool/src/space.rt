//! Whether there are places for what is written.
ghost use Rattle.std.specs.Prelude.{◌≡◌, ◌⊎◌, ◌+◌, ◌*◌, ◌≤◌, ◌<◌, ◌||◌, ◌==◌, length, is_some, IfOk, OnOk, OnErr, IfErr};
ghost use Rattle.txg_history.specs.Records.{key};
ghost use Rattle.txg_engine.specs.Writes.{is_written};
ghost use Rattle.pool_moves.specs.Refusing.{keys_needed};
ghost use Rattle.open_pool.specs.Form.{is_dirty};
ghost use Rattle.open_pool.specs.Space.{written_too};

use crate::Pool;
use crate::write::WriteFault;
use mp_base::MemFault;
use txg_engine::Open;

/// A block is a key, and there is at most one page above it on each of the three levels.
const MOST_KEYS: u64 = 4;

impl Pool {
    /// Whether the open group or the frozen one has this address.
    pub(crate) fn is_dirty(&self, addr: u64) -> bool
        ensures { result ≡ is_dirty self.now addr }
    {
        if self.open.has(addr) {
            return true;
        }
        match &self.frozen {
            Some(frozen) => frozen.block(addr).is_some(),
            None => false,
        }
    }

    /// Whether there are places for the open group with a block at this address, and for the pages above it.
    pub(crate) fn check_space(&self, addr: u64) -> Result<(), WriteFault>
        requires { addr < self.now.map.blocks }
        ensures ok { OnOk result (keys_needed self.now.map.blocks (written_too addr self.now.unfrozen.writes) ≤ self.now.map.count) }
        ensures err { IfErr result (λ fault. (fault ≡ WriteFault.Memory) ⊎ ((fault ≡ WriteFault.NoSpace (keys_needed self.now.map.blocks (written_too addr self.now.unfrozen.writes)) self.now.map.count)
            × (self.now.map.count < keys_needed self.now.map.blocks (written_too addr self.now.unfrozen.writes)))) }
    {
        self.open.keeps_its_form();
        let free = self.map.free_count();
        if MOST_KEYS * (self.open.len() as u64 + 1) <= free {
            return Ok(());
        }
        let need = self.need_with(addr)?;
        if need > free {
            return Err(WriteFault::NoSpace { need, free });
        }
        Ok(())
    }

    // How many keys the open group has with a block at this address.
    fn need_with(&self, addr: u64) -> Result<u64, MemFault>
        requires { addr < self.now.map.blocks }
        ensures { IfOk result (λ need. need ≡ keys_needed self.now.map.blocks (written_too addr self.now.unfrozen.writes)) }
    {
        self.open.keeps_its_form();
        let addrs = self.open.addrs_with(self.alloc, addr)?;
        Ok(addrs.len() as u64 + self.map.dirty_pages(&addrs))
    }
}
