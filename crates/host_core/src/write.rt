//! The line `write`.
ghost use Rattle.std.specs.Prelude.{◌≡◌, Some, Err, length};
ghost use Rattle.open_pool.specs.Writing.{write_says};
ghost use Rattle.pool_runs.specs.Lines.{Asks_write, To_write};

use crate::host::of_pool;
use crate::{Host, Refused};
use mp_base::Name;
use open_pool::WriteFault;

impl Host {
    ghost use Rattle.bank_core.specs.BankView.{BankView};
    ghost use Rattle.host_core.specs.Answering.{AnswersLine, Says};

    /// Accepts a block of 4,096 bytes at an address of the pool of this name. It makes no device call.
    pub fn write(&mut self, name: &Name, addr: u64, block: &[u8]) -> Result<(), Refused<WriteFault>>
        requires { length block.now ≡ 4096 }
        ensures { (bank : BankView) → AnswersLine (Asks_write name.now addr block.now)
            (Says To_write write_says (Some (Err WriteFault.Memory)) result) self.old self.new bank bank }
    {
        let Some(place) = self.place_of(name) else {
            return Err(Refused::NoPool);
        };
        of_pool(self.pools[place].put(addr, block))
    }
}
