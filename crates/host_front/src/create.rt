//! The line `create`.
ghost use Rattle.std.specs.Prelude.{◌≡◌, ℕ, ◌<◌, ◌≤◌, IfOk, None};
ghost use Rattle.host_machine.specs.Devices.{member_of};
ghost use Rattle.host_machine.specs.Machine.{is_bad_size};

use crate::{Host, HostDevice};
use bank_core::Bank;
use mp_base::{Group, Guid, MemFault, Name, Refusal};
use pool_core::{CreateFault, MOST_BLOCKS, NewLeaf, Pool, pool_number};
use pool_wire::Reply;

/// The most blocks that a volume may ever have.
const MOST_ADDRESSES: u64 = 262_144;

/// The number of the group that `create` commits.
const FIRST_GROUP: Group = Group(1);

impl Host {
    ghost use Rattle.std.specs.Prelude.{Some, List, Option, IfSome};
    ghost use Rattle.pool_wire.specs.declared.request.Request.TheVariants.{Create};
    ghost use Rattle.pool_core.specs.Making.{made_state};
    ghost use Rattle.host_machine.specs.Machine.{HostState, new_seats};
    ghost use Rattle.host_front.specs.Making.{AreTwoSeats, MakesPool};
    ghost use Rattle.host_front.specs.Standing.{Keeps, Stands, HostIsSeated};
    ghost use Rattle.host_front.specs.Session.{Answers};

    pub(crate) fn create<B: Bank>(
        &mut self,
        bank: &mut B,
        name: &Name,
        blocks: u64,
        first: &Name,
        second: &Name,
        time: u64,
    ) -> Reply
        requires seated { HostIsSeated (B.view bank.old).size self.old }
        ensures size { (d : ℕ) → (B.view bank.new).size d ≡ (B.view bank.old).size d }
        ensures numbers { (name : List ℕ) → (B.view bank.new).number_of name ≡ (B.view bank.old).number_of name }
        ensures lookups { (B.view bank.new).lookup_faults ≡ (B.view bank.old).lookup_faults }
        ensures answers { (h : HostState) → Stands (B.view bank.old).size self.old h → Answers h (Some (Create name.now blocks first.now second.now)) time
            (B.view bank.old).told (B.view bank.new).told (B.view bank.old).faults (B.view bank.new).faults (B.view bank.new).size self.new result }
    {
        if is_bad_size(blocks) {
            return Reply::Refused(Refusal::BadAddress {
                limit: MOST_ADDRESSES,
            });
        }
        let (dev, other) = match self.new_seats(blocks, first, second) {
            Some(seats) => seats,
            None => return Reply::Refused(Refusal::NotBuilt),
        };
        // the copies come first, so that want of memory makes no device call
        match self.new_parts(name, first, dev, second, other) {
            Ok((copy, first, second)) => {
                self.make_pool(bank, copy, pool_number(name, time), blocks, first, second)
            }
            Err(MemFault) => Reply::Refused(Refusal::Memory),
        }
    }

    // The devices of the new members, where this case of the line is built: there is one pool at most, of 32
    // blocks at most, on two devices that may become members.
    fn new_seats(&self, blocks: u64, first: &Name, second: &Name) -> Option<(u32, u32)>
        ensures is { (h : HostState) (size : ℕ → ℕ) → Keeps size self.now h → result ≡ new_seats h blocks first.now second.now }
        ensures few { IfSome result (λ seats. blocks ≤ 32) }
        ensures two { (size : ℕ → ℕ) → HostIsSeated size self.now → IfSome result (λ seats. AreTwoSeats size first.now second.now seats.0 seats.1) }
    {
        if self.pool.is_some() {
            return None;
        }
        if blocks > MOST_BLOCKS {
            return None;
        }
        if first == second {
            return None;
        }
        let dev = member_of(&self.table, first)?;
        let other = member_of(&self.table, second)?;
        Some((dev, other))
    }

    // Copies of the names, with the devices of the new leaves.
    fn new_parts(
        &self,
        name: &Name,
        first: &Name,
        dev: u32,
        second: &Name,
        other: u32,
    ) -> Result<(Name, NewLeaf, NewLeaf), MemFault>
        ensures { IfOk result (λ parts. parts ≡ (name.now, record { name = first.now; dev = dev }, record { name = second.now; dev = other })) }
    {
        let first = NewLeaf {
            name: first.copy(self.alloc)?,
            dev,
        };
        let second = NewLeaf {
            name: second.copy(self.alloc)?,
            dev: other,
        };
        Ok((name.copy(self.alloc)?, first, second))
    }

    // Makes the pool, which is open where no device call failed.
    fn make_pool<B: Bank>(
        &mut self,
        bank: &mut B,
        name: Name,
        number: Guid,
        blocks: u64,
        first: NewLeaf,
        second: NewLeaf,
    ) -> Reply
        requires seated { HostIsSeated (B.view bank.old).size self.old }
        requires some { 0 < blocks }
        requires few { blocks ≤ 32 }
        requires number { 1 ≤ number.0 }
        requires two { AreTwoSeats (B.view bank.old).size first.name second.name first.dev second.dev }
        ensures size { (d : ℕ) → (B.view bank.new).size d ≡ (B.view bank.old).size d }
        ensures numbers { (name : List ℕ) → (B.view bank.new).number_of name ≡ (B.view bank.old).number_of name }
        ensures lookups { (B.view bank.new).lookup_faults ≡ (B.view bank.old).lookup_faults }
        ensures makes { (h : HostState) → Keeps (B.view bank.old).size self.old h
            → MakesPool h (made_state (B.view bank.old).size name number blocks (first.name, first.dev) (second.name, second.dev))
            (first.dev, second.dev) (B.view bank.old).told (B.view bank.new).told (B.view bank.old).faults (B.view bank.new).faults (B.view bank.new).size self.new result }
    {
        match Pool::create(self.alloc, bank, name, number, blocks, first, second) {
            Ok(pool) => {
                self.pool = Some(pool);
                Reply::Committed(FIRST_GROUP)
            }
            Err(CreateFault::Memory) => Reply::Refused(Refusal::Memory),
            Err(CreateFault::Device(name)) => Reply::DeviceFault { name },
        }
    }
}

fn is_bad_size(blocks: u64) -> bool
    ensures { result ≡ is_bad_size blocks }
{
    blocks == 0 || blocks > MOST_ADDRESSES
}

// The number of the device of this name, if it may become a member.
fn member_of(table: &[HostDevice], name: &Name) -> Option<u32>
    ensures { result ≡ member_of name.now table.now }
{
    for device in table {
        if &device.name == name {
            return device.usable();
        }
    }
    None
}
