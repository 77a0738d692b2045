//! An open group that is taken out for a while, and the addresses that one would have with one more.
ghost use Rattle.std.specs.Prelude.{◌≡◌, ℕ, ◌+◌, ◌≤◌, ◌==◌, ◌||◌, [], length, map, IfOk};
ghost use Rattle.std.specs.List.{list_any};
ghost use Rattle.block_map.specs.Dirty.{Rises};
ghost use Rattle.txg_engine.specs.Freezing.{addr_of};
ghost use Rattle.txg_engine.specs.Writes.{is_written};

use crate::open::{Open, find};
use crate::write::Write;
use mp_base::MemFault;
use std::alloc::Global;

impl Open {
    /// No write, nor room for one. It takes no memory, and stands where the open group is taken out for a while.
    pub fn without_room(alloc: Global) -> Open
        ensures { result.writes ≡ [] }
    {
        Open {
            writes: Vec::new(alloc),
        }
    }

    /// The addresses that were written and this one, as they rise.
    pub fn addrs_with(&self, alloc: Global, addr: u64) -> Result<Vec<u64>, MemFault>
        ensures rise { IfOk result (λ addrs. Rises addrs.items) }
        ensures are { IfOk result (λ addrs. (x : ℕ) → list_any (λ a. a == x) addrs.items ≡ ((addr == x) || is_written self.now.writes x)) }
        ensures few { IfOk result (λ addrs. length addrs.items ≤ length self.now.writes + 1) }
    {
        let mut addrs = addrs_of(alloc, &self.writes)?;
        if let Err(at) = find(&self.writes, addr) {
            addrs.insert(at, addr)?;
        }
        Ok(addrs)
    }
}

fn addrs_of(alloc: Global, writes: &[Write]) -> Result<Vec<u64>, MemFault>
    ensures { IfOk result (λ addrs. addrs.items ≡ map addr_of writes.now) }
{
    let mut addrs = Vec::with_capacity(alloc, writes.len())?;
    for write in writes {
        addrs.push(write.addr)?;
    }
    Ok(addrs)
}
