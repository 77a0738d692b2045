//! The names of the leaves that a block stands on.
ghost use Rattle.std.specs.Prelude.{◌≡◌, IfOk};

use crate::Host;
use mp_base::{MemFault, Name};

impl Host {
    ghost use Rattle.bank_core.specs.BankView.{BankView};
    ghost use Rattle.pool_runs.specs.Hosts.{Host as RunHost};
    ghost use Rattle.host_core.specs.BlockNames.{names_of_block};
    ghost use Rattle.host_core.specs.Standing.{HostStands};

    /// The names of the leaves under the top of the committed block of this address, in the pool of this name, in tree order.
    /// Where there is no such pool or no such block, there are none.
    pub fn names_of_block(&self, name: &Name, addr: u64) -> Result<Vec<Name>, MemFault>
        ensures { (bank : BankView) (h : RunHost) → HostStands self.now bank h → IfOk result (λ names. names.items ≡ names_of_block name.now addr h) }
    {
        let Some(place) = self.place_of(name) else {
            return Ok(Vec::new(self.alloc));
        };
        self.pools[place].names_of_block(addr)
    }
}
