//! The line `read`.
ghost use Rattle.std.specs.Prelude.{◌≡◌, ℕ};

use crate::Host;
use crate::reading::read_from;
use bank_core::Bank;
use mp_base::{Name, Refusal};
use pool_wire::Reply;

impl Host {
    ghost use Rattle.std.specs.Prelude.{Some, List, Option};
    ghost use Rattle.pool_wire.specs.declared.request.Request.TheVariants.{Read};
    ghost use Rattle.host_machine.specs.Machine.{HostState};
    ghost use Rattle.host_front.specs.Standing.{Stands, HostIsSeated};
    ghost use Rattle.host_front.specs.Session.{Answers};

    pub(crate) fn read<B: Bank>(&self, bank: &mut B, name: &Name, address: u64) -> Reply
        requires seated { HostIsSeated (B.view bank.old).size self.now }
        ensures size { (d : ℕ) → (B.view bank.new).size d ≡ (B.view bank.old).size d }
        ensures numbers { (name : List ℕ) → (B.view bank.new).number_of name ≡ (B.view bank.old).number_of name }
        ensures lookups { (B.view bank.new).lookup_faults ≡ (B.view bank.old).lookup_faults }
        ensures answers { (h : HostState) (second : ℕ) → Stands (B.view bank.old).size self.now h → Answers h (Some (Read name.now address)) second
            (B.view bank.old).told (B.view bank.new).told (B.view bank.old).faults (B.view bank.new).faults (B.view bank.new).size self.now result }
    {
        match &self.pool {
            Some(pool) => {
                if !pool.is_named(name) {
                    return Reply::Refused(Refusal::NoPool);
                }
                read_from(self.alloc, pool, bank, address)
            }
            None => Reply::Refused(Refusal::NoPool),
        }
    }
}
