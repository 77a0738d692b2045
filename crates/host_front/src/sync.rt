//! The line `sync`.
ghost use Rattle.std.specs.Prelude.{◌≡◌, ℕ};

use crate::Host;
use bank_core::Bank;
use mp_base::{Name, Refusal};
use pool_wire::Reply;

impl Host {
    ghost use Rattle.std.specs.Prelude.{Some, List, Option};
    ghost use Rattle.pool_wire.specs.declared.request.Request.TheVariants.{Sync};
    ghost use Rattle.host_machine.specs.Machine.{HostState};
    ghost use Rattle.pool_wire.specs.declared.reply.Reply.TheVariants.{Refused};
    ghost use Rattle.host_front.specs.Closing.{left_by};
    ghost use Rattle.host_front.specs.Standing.{Stands, HostIsSeated};
    ghost use Rattle.host_front.specs.Session.{Answers};

    pub(crate) fn sync<B: Bank>(&mut self, bank: &mut B, name: &Name) -> Reply
        requires seated { HostIsSeated (B.view bank.old).size self.old }
        ensures size { (d : ℕ) → (B.view bank.new).size d ≡ (B.view bank.old).size d }
        ensures numbers { (name : List ℕ) → (B.view bank.new).number_of name ≡ (B.view bank.old).number_of name }
        ensures lookups { (B.view bank.new).lookup_faults ≡ (B.view bank.old).lookup_faults }
        ensures answers { (h : HostState) (second : ℕ) → Stands (B.view bank.old).size self.old h → Answers h (Some (Sync name.now)) second
            (B.view bank.old).told (B.view bank.new).told (B.view bank.old).faults (B.view bank.new).faults (B.view bank.new).size self.new result }
    {
        match &mut self.pool {
            Some(pool) => {
                if !pool.is_named(name) {
                    return Reply::Refused(Refusal::NoPool);
                }
                match pool.sync(bank) {
                    Ok(group) => Reply::Committed(group),
                    Err(refusal) => self.refuse_sync(refusal),
                }
            }
            None => Reply::Refused(Refusal::NoPool),
        }
    }

    // A refused sync. One in which a call failed closes the pool: only another opening finds which record its members have.
    fn refuse_sync(&mut self, refusal: Refusal) -> Reply
        ensures is { result ≡ Refused refusal }
        ensures left { self.new ≡ record self.old { pool = left_by refusal self.old.pool } }
    {
        if let Refusal::Suspended { faults, .. } = refusal {
            if faults > 0 {
                self.pool = None;
            }
        }
        Reply::Refused(refusal)
    }
}
