//! The line `logs`.
ghost use Rattle.std.specs.Prelude.{All, IfOk};
ghost use Rattle.open_pool.specs.Telling.{IsRising, logs_told};
ghost use Rattle.pool_runs.specs.Lines.{Asks_logs};

use crate::host::of_pool;
use crate::{Host, Refused};
use mp_base::{MemFault, Name};
use open_pool::LeafLog;

impl Host {
    ghost use Rattle.bank_core.specs.BankView.{BankView};
    ghost use Rattle.host_core.specs.Answering.{AnswersLine};
    ghost use Rattle.host_core.specs.Telling.{TellsLogs};

    /// The log of each leaf of the pool of this name, in tree order. It makes no device call.
    pub fn logs(&self, name: &Name) -> Result<Vec<LeafLog>, Refused<MemFault>>
        ensures answers { (bank : BankView) → AnswersLine (Asks_logs name.now) (TellsLogs (λ logs. logs_told logs.items) result) self.now self.now bank bank }
        ensures rise { IfOk result (λ logs. All IsRising logs.items) }
    {
        let Some(place) = self.place_of(name) else {
            return Err(Refused::NoPool);
        };
        of_pool(self.pools[place].logs())
    }
}
