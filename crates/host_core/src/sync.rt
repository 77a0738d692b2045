//! The line `sync`.
ghost use Rattle.std.specs.Prelude.{Some, Err};
ghost use Rattle.open_pool.specs.Syncing.{sync_says};
ghost use Rattle.pool_runs.specs.Lines.{Asks_sync, To_sync};

use crate::host::of_pool;
use crate::{Host, Refused};
use bank_core::Bank;
use mp_base::{Group, Name};
use open_pool::SyncFault;

impl Host {
    ghost use Rattle.host_core.specs.Answering.{AnswersLine, Says};
    ghost use Rattle.host_core.specs.Standing.{IsSeated};

    /// Ends the frozen group of the pool of this name, if there is one, and then freezes and ends the open one. At `Ok` everything
    /// that was written is acknowledged, in the record of this number.
    pub fn sync<B: Bank>(&mut self, bank: &mut B, name: &Name) -> Result<Group, Refused<SyncFault>>
        requires seated { IsSeated self.old (B.view bank.old) }
        ensures { AnswersLine (Asks_sync name.now) (Says To_sync sync_says (Some (Err SyncFault.Memory)) result)
            self.old self.new (B.view bank.old) (B.view bank.new) }
    {
        let Some(place) = self.place_of(name) else {
            return Err(Refused::NoPool);
        };
        of_pool(self.pools[place].sync(bank))
    }
}
