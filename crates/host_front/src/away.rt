//! The lines `offline`, `online` and `logs`.
ghost use Rattle.std.specs.Prelude.{◌≡◌, ℕ, List, Some, Err, IfOk, map};
ghost use Rattle.pool_core.specs.Away.{IsOwnDevice};
ghost use Rattle.pool_core.specs.Keeping.{Stands as PairStands, Represents};
ghost use Rattle.pool_core.specs.State.{LeafState, PoolState, leaves};
ghost use Rattle.host_machine.specs.Devices.{number_in};
ghost use Rattle.host_machine.specs.Machine.{online_reply, shown_log};
ghost use Rattle.host_front.specs.Bringing.{BringsBack};

use crate::{Host, HostDevice};
use bank_core::Bank;
use mp_base::{MemFault, Name, Refusal};
use pool_core::Pool;
use pool_wire::{LeafLog, LeafLogs, Reply};
use std::alloc::Global;

impl Host {
    ghost use Rattle.std.specs.Prelude.{Option};
    ghost use Rattle.bank_core.specs.Story.{Story};
    ghost use Rattle.pool_wire.specs.declared.request.Request.TheVariants.{Offline, Online, Logs};
    ghost use Rattle.host_machine.specs.Machine.{HostState};
    ghost use Rattle.host_front.specs.Standing.{Stands, HostIsSeated};
    ghost use Rattle.host_front.specs.Session.{Answers};

    pub(crate) fn offline(&mut self, name: &Name, device: &Name, temporary: bool) -> Reply
        ensures { (h : HostState) (second : ℕ) (told : Option Story) (faults size : ℕ → ℕ) → Stands size self.old h
            → Answers h (Some (Offline name.now device.now temporary)) second told told faults faults size self.new result }
    {
        match &mut self.pool {
            Some(pool) => {
                if !pool.is_named(name) {
                    return Reply::Refused(Refusal::NoPool);
                }
                match pool.offline(device, temporary) {
                    Ok(()) => Reply::Done,
                    Err(refusal) => Reply::Refused(refusal),
                }
            }
            None => Reply::Refused(Refusal::NoPool),
        }
    }

    pub(crate) fn online<B: Bank>(&mut self, bank: &mut B, name: &Name, device: &Name) -> Reply
        requires seated { HostIsSeated (B.view bank.old).size self.old }
        ensures size { (d : ℕ) → (B.view bank.new).size d ≡ (B.view bank.old).size d }
        ensures numbers { (name : List ℕ) → (B.view bank.new).number_of name ≡ (B.view bank.old).number_of name }
        ensures lookups { (B.view bank.new).lookup_faults ≡ (B.view bank.old).lookup_faults }
        ensures answers { (h : HostState) (second : ℕ) → Stands (B.view bank.old).size self.old h → Answers h (Some (Online name.now device.now)) second
            (B.view bank.old).told (B.view bank.new).told (B.view bank.old).faults (B.view bank.new).faults (B.view bank.new).size self.new result }
    {
        let dev = number_in(&self.table, device);
        match &mut self.pool {
            Some(pool) => {
                if !pool.is_named(name) {
                    return Reply::Refused(Refusal::NoPool);
                }
                online_in(self.alloc, pool, bank, device, dev)
            }
            None => Reply::Refused(Refusal::NoPool),
        }
    }

    pub(crate) fn logs(&self, name: &Name) -> Reply
        ensures { (h : HostState) (second : ℕ) (told : Option Story) (faults size : ℕ → ℕ) → Stands size self.now h
            → Answers h (Some (Logs name.now)) second told told faults faults size self.now result }
    {
        match &self.pool {
            Some(pool) => {
                if !pool.is_named(name) {
                    return Reply::Refused(Refusal::NoPool);
                }
                match logs_of(self.alloc, pool) {
                    Ok(logs) => Reply::Logs(logs),
                    Err(MemFault) => Reply::Refused(Refusal::Memory),
                }
            }
            None => Reply::Refused(Refusal::NoPool),
        }
    }
}

// Brings a leaf of the pool back, whose device was found under this number, or wasn't. The name for a refusal is copied
// first, so that want of memory makes no device call.
fn online_in<B: Bank>(
    alloc: Global,
    pool: &mut Pool,
    bank: &mut B,
    device: &Name,
    dev: Option<u32>,
) -> Reply
    requires own { (s : PoolState) (d : ℕ) → PairStands pool.old.pair s → dev ≡ Some d → IsOwnDevice s device.now d }
    ensures size { (d : ℕ) → (B.view bank.new).size d ≡ (B.view bank.old).size d }
    ensures numbers { (name : List ℕ) → (B.view bank.new).number_of name ≡ (B.view bank.old).number_of name }
    ensures lookups { (B.view bank.new).lookup_faults ≡ (B.view bank.old).lookup_faults }
    ensures onlines { (s : PoolState) → Represents pool.old s
        → BringsBack s device.now dev (B.view bank.old).size (B.view bank.old).told (B.view bank.new).told (B.view bank.old).faults (B.view bank.new).faults pool.new result }
{
    if !pool.has_leaf(device) {
        return Reply::Refused(Refusal::NoVdev);
    }
    let name = match device.copy(alloc) {
        Ok(name) => name,
        Err(_) => return Reply::Refused(Refusal::Memory),
    };
    let Some(dev) = dev else {
        return Reply::NoDevice { name };
    };
    match pool.online(bank, device, dev) {
        Ok(state) => Reply::State(state),
        Err(refusal) => online_refused(name, refusal),
    }
}

// The reply to a refused `online` of the leaf of this name.
fn online_refused(name: Name, refusal: Refusal) -> Reply
    ensures { (leaf : LeafState) → leaf.name ≡ name → result ≡ online_reply leaf (Err refusal) }
{
    match refusal {
        Refusal::DeviceFault { .. } => Reply::DeviceFault { name },
        Refusal::WrongLabel { .. } => Reply::WrongLabel { name },
        refusal => Reply::Refused(refusal),
    }
}

fn logs_of(alloc: Global, pool: &Pool) -> Result<LeafLogs, MemFault>
    ensures { (s : PoolState) → Represents pool.now s → IfOk result (λ logs. logs ≡ map (shown_log s.number) (leaves s)) }
{
    let mut logs = LeafLogs::new(alloc);
    for leaf in pool.logs()? {
        logs.push(LeafLog {
            name: leaf.name,
            log: leaf.log,
        })?;
    }
    Ok(logs)
}

// The number under which the device of this name was found.
fn number_in(table: &[HostDevice], name: &Name) -> Option<u32>
    ensures { result ≡ number_in name.now table.now }
{
    for device in table {
        if &device.name == name {
            return device.dev;
        }
    }
    None
}
