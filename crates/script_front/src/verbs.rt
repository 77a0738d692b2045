//! The lines of an open pool but `read`.
ghost use Rattle.std.specs.Prelude.{◌≡◌, IfOk, All, map};
ghost use Rattle.bank_core.specs.BankView.{BankView};
ghost use Rattle.host_core.specs.Standing.{IsSeated};
ghost use Rattle.pool_runs.specs.Lines.{Asks_write, Asks_freeze, Asks_turn, Asks_sync, Asks_offline, Asks_logs};
ghost use Rattle.script_front.specs.Answering.{AnswersBy};
ghost use Rattle.script_front.specs.Converting.{IsLogsReply, told_log};

use crate::replies::{freeze_reply, offline_reply, sync_reply, turn_reply, write_reply};
use bank_core::Bank;
use host_core::{Host, Refused};
use mp_base::{Block, MemFault, Name};
use pool_lines::{LeafLog, LeafLogs, Refusal, Reply};
use std::alloc::Global;

pub(crate) fn write(host: &mut Host, pool: &Name, address: u64, block: &Block) -> Reply
    ensures { (bank : BankView) → AnswersBy (Asks_write pool.now address block.now) host.old host.new bank bank result }
{
    write_reply(host.write(pool, address, block.as_bytes()))
}

pub(crate) fn freeze(host: &mut Host, pool: &Name) -> Reply
    ensures { (bank : BankView) → AnswersBy (Asks_freeze pool.now) host.old host.new bank bank result }
{
    freeze_reply(host.freeze(pool))
}

pub(crate) fn turn<B: Bank>(host: &mut Host, bank: &mut B, pool: &Name) -> Reply
    requires seated { IsSeated host.old (B.view bank.old) }
    ensures { AnswersBy (Asks_turn pool.now) host.old host.new (B.view bank.old) (B.view bank.new) result }
{
    turn_reply(host.turn(bank, pool))
}

pub(crate) fn sync<B: Bank>(host: &mut Host, bank: &mut B, pool: &Name) -> Reply
    requires seated { IsSeated host.old (B.view bank.old) }
    ensures { AnswersBy (Asks_sync pool.now) host.old host.new (B.view bank.old) (B.view bank.new) result }
{
    sync_reply(host.sync(bank, pool))
}

pub(crate) fn offline(host: &mut Host, pool: &Name, device: &Name, temporary: bool) -> Reply
    ensures { (bank : BankView) → AnswersBy (Asks_offline pool.now device.now temporary) host.old host.new bank bank result }
{
    offline_reply(host.offline(pool, device, temporary))
}

pub(crate) fn logs(alloc: Global, host: &Host, pool: &Name) -> Reply
    ensures { (bank : BankView) → AnswersBy (Asks_logs pool.now) host.now host.now bank bank result }
{
    match host.logs(pool) {
        Ok(logs) => logs_reply(alloc, logs),
        Err(Refused::NoPool) => Reply::Refused(Refusal::NoPool),
        Err(Refused::Pool(MemFault)) => Reply::Refused(Refusal::Memory),
    }
}

// The logs, or that there was no memory to tell them.
fn logs_reply(alloc: Global, logs: Vec<open_pool::LeafLog>) -> Reply
    ensures { IsLogsReply logs.items result }
{
    match told_logs(alloc, logs) {
        Ok(leaves) => Reply::Logs(leaves),
        Err(MemFault) => Reply::Refused(Refusal::Memory),
    }
}

fn told_logs(alloc: Global, logs: Vec<open_pool::LeafLog>) -> Result<LeafLogs, MemFault>
    ensures { IfOk result (λ leaves. leaves ≡ map told_log logs.items) }
{
    let mut leaves = LeafLogs::new(alloc);
    for log in logs {
        leaves.push(LeafLog {
            name: log.name,
            log: log.log,
        })?;
    }
    Ok(leaves)
}
