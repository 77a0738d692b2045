//! The line `offline`.
ghost use Rattle.std.specs.Prelude.{None};
ghost use Rattle.open_pool.specs.Offline.{offline_says};
ghost use Rattle.pool_runs.specs.Lines.{Asks_offline, To_offline};

use crate::host::of_pool;
use crate::{Host, Refused};
use mp_base::Name;
use open_pool::OfflineFault;

impl Host {
    ghost use Rattle.bank_core.specs.BankView.{BankView};
    ghost use Rattle.host_core.specs.Answering.{AnswersLine, Says};

    /// Takes the leaf on the device of this name offline, in the pool of this name, with `temporary` only until the next opening. It
    /// makes no device call and takes no memory.
    pub fn offline(
        &mut self,
        name: &Name,
        device: &Name,
        temporary: bool,
    ) -> Result<(), Refused<OfflineFault>>
        ensures { (bank : BankView) → AnswersLine (Asks_offline name.now device.now temporary) (Says To_offline offline_says None result)
            self.old self.new bank bank }
    {
        let Some(place) = self.place_of(name) else {
            return Err(Refused::NoPool);
        };
        of_pool(self.pools[place].offline(device, temporary))
    }
}
