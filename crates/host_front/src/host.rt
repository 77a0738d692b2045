//! A host: its devices, and the pool that is open. It answers lines.
ghost use Rattle.std.specs.Prelude.{◌≡◌, ℕ, List, Option, Some};
ghost use Rattle.host_machine.specs.Fitness.{IsWhole};

use crate::HostDevice;
use bank_core::Bank;
use host_machine::hosts_stay_fit;
use mp_base::Refusal;
use pool_core::Pool;
use pool_wire::{LineFault, Reply, Request, read_line};
use std::alloc::Global;

/// A host, which answers lines one after another.
#[derive(Drop)]
pub struct Host {
    pub(crate) alloc: Global,
    pub(crate) table: Vec<HostDevice>,
    pub(crate) pool: Option<Pool>,
}

impl Host {
    ghost use Rattle.pool_wire.specs.Reading.{request_of};
    ghost use Rattle.pool_history.specs.Records.{Rec};
    ghost use Rattle.host_machine.specs.Devices.{AreApart};
    ghost use Rattle.host_machine.specs.Fitness.{AreSized};
    ghost use Rattle.host_machine.specs.Machine.{HostState, started};
    ghost use Rattle.host_machine.specs.Records.{AreDrawn};
    ghost use Rattle.host_front.specs.Standing.{Stands, HostIsSeated};
    ghost use Rattle.host_front.specs.Session.{Answers};

    /// A host of these devices, with no pool.
    pub fn new(alloc: Global, table: Vec<HostDevice>) -> Host
        ensures seated { (size : ℕ → ℕ) → AreSized size table.items → AreApart table.items → HostIsSeated size result }
        ensures stands { (size bank_size : ℕ → ℕ) (records : List Rec) → ((d : ℕ) → size d ≡ bank_size d) → AreSized size table.items
            → AreApart table.items → AreDrawn records → Stands bank_size result (started table.items size records) }
    {
        Host {
            alloc,
            table,
            pool: None,
        }
    }

    /// Answers a line, which was asked at this second. A line outside the grammar is refused as not built.
    pub fn answer<B: Bank>(&mut self, bank: &mut B, line: &[u8], time: u64) -> Reply
        requires seated { HostIsSeated (B.view bank.old).size self.old }
        ensures size { (d : ℕ) → (B.view bank.new).size d ≡ (B.view bank.old).size d }
        ensures numbers { (name : List ℕ) → (B.view bank.new).number_of name ≡ (B.view bank.old).number_of name }
        ensures lookups { (B.view bank.new).lookup_faults ≡ (B.view bank.old).lookup_faults }
        ensures seated { HostIsSeated (B.view bank.new).size self.new }
        ensures answers { (h : HostState) → Stands (B.view bank.old).size self.old h → Answers h (request_of line.now) time
            (B.view bank.old).told (B.view bank.new).told (B.view bank.old).faults (B.view bank.new).faults (B.view bank.new).size self.new result }
    {
        match read_line(self.alloc, line) {
            Ok(request) => self.request(bank, &request, time),
            Err(LineFault::Bad) => Reply::Refused(Refusal::NotBuilt),
            Err(LineFault::Memory) => Reply::Refused(Refusal::Memory),
        }
    }

    /// Answers a request, which was asked at this second.
    pub fn request<B: Bank>(&mut self, bank: &mut B, request: &Request, time: u64) -> Reply
        requires seated { HostIsSeated (B.view bank.old).size self.old }
        ensures size { (d : ℕ) → (B.view bank.new).size d ≡ (B.view bank.old).size d }
        ensures numbers { (name : List ℕ) → (B.view bank.new).number_of name ≡ (B.view bank.old).number_of name }
        ensures lookups { (B.view bank.new).lookup_faults ≡ (B.view bank.old).lookup_faults }
        ensures seated { HostIsSeated (B.view bank.new).size self.new }
        ensures answers { (h : HostState) → Stands (B.view bank.old).size self.old h → Answers h (Some request.now) time
            (B.view bank.old).told (B.view bank.new).told (B.view bank.old).faults (B.view bank.new).faults (B.view bank.new).size self.new result }
    {
        hosts_stay_fit();
        asks_whole(request);
        self.reply_to(bank, request, time)
    }

    fn reply_to<B: Bank>(&mut self, bank: &mut B, request: &Request, time: u64) -> Reply
        requires seated { HostIsSeated (B.view bank.old).size self.old }
        ensures size { (d : ℕ) → (B.view bank.new).size d ≡ (B.view bank.old).size d }
        ensures numbers { (name : List ℕ) → (B.view bank.new).number_of name ≡ (B.view bank.old).number_of name }
        ensures lookups { (B.view bank.new).lookup_faults ≡ (B.view bank.old).lookup_faults }
        ensures answers { (h : HostState) → Stands (B.view bank.old).size self.old h → Answers h (Some request.now) time
            (B.view bank.old).told (B.view bank.new).told (B.view bank.old).faults (B.view bank.new).faults (B.view bank.new).size self.new result }
    {
        match request {
            Request::Nothing => Reply::Done,
            Request::Create {
                pool,
                blocks,
                first,
                second,
            } => self.create(bank, pool, *blocks, first, second, time),
            Request::Import { pool } => self.import(bank, pool),
            Request::Write {
                pool,
                address,
                block,
            } => self.write(pool, *address, block),
            Request::Read { pool, address } => self.read(bank, pool, *address),
            Request::Sync { pool } => self.sync(bank, pool),
            Request::Offline {
                pool,
                device,
                temporary,
            } => self.offline(pool, device, *temporary),
            Request::Online { pool, device } => self.online(bank, pool, device),
            Request::Logs { pool } => self.logs(pool),
        }
    }
}

// What a request names is spelled as a name, and what it writes is a whole block, as a fact for the proof.
fn asks_whole(request: &Request)
    ensures { IsWhole (Some request.now) }
{
    match request {
        Request::Create {
            pool,
            first,
            second,
            ..
        } => {
            pool.spells_a_name();
            first.spells_a_name();
            second.spells_a_name();
        }
        Request::Write { block, .. } => {
            let _bytes = block.as_bytes();
        }
        Request::Nothing
        | Request::Import { .. }
        | Request::Read { .. }
        | Request::Sync { .. }
        | Request::Offline { .. }
        | Request::Online { .. }
        | Request::Logs { .. } => {}
    }
}
