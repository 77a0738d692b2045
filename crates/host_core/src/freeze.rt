//! The line `freeze`.
ghost use Rattle.std.specs.Prelude.{Some, Err};
ghost use Rattle.open_pool.specs.Freezing.{freeze_says};
ghost use Rattle.pool_runs.specs.Lines.{Asks_freeze, To_freeze};

use crate::host::of_pool;
use crate::{Host, Refused};
use bank_core::Bank;
use mp_base::{Group, Name};
use open_pool::FreezeFault;

impl Host {
    ghost use Rattle.bank_core.specs.BankView.{BankView};
    ghost use Rattle.host_core.specs.Answering.{AnswersLine, Says};

    /// Freezes the open group of the pool of this name, and answers the number that was drawn. It makes no device call.
    pub fn freeze(&mut self, name: &Name) -> Result<Group, Refused<FreezeFault>>
        ensures { (bank : BankView) → AnswersLine (Asks_freeze name.now) (Says To_freeze freeze_says (Some (Err FreezeFault.Memory)) result)
            self.old self.new bank bank }
    {
        let Some(place) = self.place_of(name) else {
            return Err(Refused::NoPool);
        };
        of_pool(self.pools[place].freeze())
    }
}
