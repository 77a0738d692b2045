//! The line `write`.
ghost use Rattle.std.specs.Prelude.{◌≡◌, ℕ};

use crate::Host;
use mp_base::{Block, Name, Refusal};
use pool_wire::Reply;

impl Host {
    ghost use Rattle.std.specs.Prelude.{Some, List, Option};
    ghost use Rattle.bank_core.specs.Story.{Story};
    ghost use Rattle.pool_wire.specs.declared.request.Request.TheVariants.{Write};
    ghost use Rattle.host_machine.specs.Machine.{HostState};
    ghost use Rattle.host_front.specs.Standing.{Stands};
    ghost use Rattle.host_front.specs.Session.{Answers};

    pub(crate) fn write(&mut self, name: &Name, address: u64, block: &Block) -> Reply
        ensures { (h : HostState) (second : ℕ) (told : Option Story) (faults size : ℕ → ℕ) → Stands size self.old h
            → Answers h (Some (Write name.now address block.now)) second told told faults faults size self.new result }
    {
        match &mut self.pool {
            Some(pool) => {
                if !pool.is_named(name) {
                    return Reply::Refused(Refusal::NoPool);
                }
                match pool.put(address, block.as_bytes()) {
                    Ok(()) => Reply::Done,
                    Err(refusal) => Reply::Refused(refusal),
                }
            }
            None => Reply::Refused(Refusal::NoPool),
        }
    }
}
