//! The line `turn`.
ghost use Rattle.std.specs.Prelude.{None};
ghost use Rattle.open_pool.specs.Committing.{turn_says};
ghost use Rattle.pool_runs.specs.Lines.{Asks_turn, To_turn};

use crate::host::of_pool;
use crate::{Host, Refused};
use bank_core::Bank;
use mp_base::Name;
use open_pool::TurnDone;
use txg_engine::Suspended;

impl Host {
    ghost use Rattle.host_core.specs.Answering.{AnswersLine, Says};
    ghost use Rattle.host_core.specs.Standing.{IsSeated};

    /// Makes one turn of the frozen group of the pool of this name. It takes no memory. At `Pool` the group is suspended.
    pub fn turn<B: Bank>(
        &mut self,
        bank: &mut B,
        name: &Name,
    ) -> Result<TurnDone, Refused<Suspended>>
        requires seated { IsSeated self.old (B.view bank.old) }
        ensures { AnswersLine (Asks_turn name.now) (Says To_turn turn_says None result) self.old self.new (B.view bank.old) (B.view bank.new) }
    {
        let Some(place) = self.place_of(name) else {
            return Err(Refused::NoPool);
        };
        of_pool(self.pools[place].turn(bank))
    }
}
