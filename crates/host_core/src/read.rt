//! The line `read`.
ghost use Rattle.std.specs.Prelude.{◌≡◌, None, length};
ghost use Rattle.open_pool.specs.Reading.{read_says};
ghost use Rattle.pool_runs.specs.Lines.{Asks_read, To_read};

use crate::host::of_pool;
use crate::{Host, Refused};
use bank_core::Bank;
use mp_base::Name;
use open_pool::ReadFault;

impl Host {
    ghost use Rattle.host_core.specs.Answering.{AnswersLine, Says};
    ghost use Rattle.host_core.specs.Standing.{IsSeated};
    ghost use Rattle.host_core.specs.Telling.{with_bytes};

    /// Reads a block of the pool of this name: what was written last at the address, zeros where nothing was. It takes no memory. After
    /// an `Err` nothing is said of `out`.
    pub fn read<B: Bank>(
        &mut self,
        bank: &mut B,
        name: &Name,
        addr: u64,
        out: &mut [u8],
    ) -> Result<(), Refused<ReadFault>>
        requires block { length out.old ≡ 4096 }
        requires seated { IsSeated self.old (B.view bank.old) }
        ensures { AnswersLine (Asks_read name.now addr) (Says To_read read_says None (with_bytes out.new result))
            self.old self.new (B.view bank.old) (B.view bank.new) }
    {
        let Some(place) = self.place_of(name) else {
            return Err(Refused::NoPool);
        };
        of_pool(self.pools[place].read(bank, addr, out))
    }
}
