//! One line, read and answered.
ghost use Rattle.std.specs.Prelude.{◌≡◌};
ghost use Rattle.host_core.specs.Standing.{HostStands, IsSeated};
ghost use Rattle.pool_runs.specs.Hosts.{Host as RunHost};
ghost use Rattle.script_front.specs.Answering.{AnswersLine, Replies};
ghost use Rattle.script_front.specs.Asking.{asked_of};

use crate::read::read;
use crate::verbs::{freeze, logs, offline, sync, turn, write};
use bank_core::Bank;
use host_core::Host;
use mp_base::MemFault;
use pool_lines::{LineFault, Refusal, Reply, Request, read_line};
use std::alloc::Global;

// Answers a line. At Err it was answered, and there was no memory to tell the reply.
pub(crate) fn answer<B: Bank>(
    alloc: Global,
    host: &mut Host,
    bank: &mut B,
    line: &[u8],
) -> Result<Reply, MemFault>
    requires seated { IsSeated host.old (B.view bank.old) }
    ensures seated { IsSeated host.new (B.view bank.new) }
    ensures answers { (h : RunHost) → HostStands host.old (B.view bank.old) h
        → AnswersLine line.now h host.new (B.view bank.old) (B.view bank.new) result }
{
    match read_line(alloc, line) {
        Ok(request) => reply_to(alloc, host, bank, &request),
        Err(LineFault::Bad) => Ok(Reply::Refused(Refusal::NotBuilt)),
        Err(LineFault::Memory) => Ok(Reply::Refused(Refusal::Memory)),
    }
}

// Answers a request.
fn reply_to<B: Bank>(
    alloc: Global,
    host: &mut Host,
    bank: &mut B,
    request: &Request,
) -> Result<Reply, MemFault>
    requires seated { IsSeated host.old (B.view bank.old) }
    ensures { (h : RunHost) → HostStands host.old (B.view bank.old) h
        → Replies (asked_of request.now) h host.new (B.view bank.old) (B.view bank.new) result }
{
    match request {
        Request::Nothing => Ok(Reply::Done),
        Request::Write {
            pool,
            address,
            block,
        } => Ok(write(host, pool, *address, block)),
        Request::Read { pool, address } => read(alloc, host, bank, pool, *address),
        Request::Freeze { pool } => Ok(freeze(host, pool)),
        Request::Turn { pool } => Ok(turn(host, bank, pool)),
        Request::Sync { pool } => Ok(sync(host, bank, pool)),
        Request::Offline {
            pool,
            device,
            temporary,
        } => Ok(offline(host, pool, device, *temporary)),
        Request::Logs { pool } => Ok(logs(alloc, host, pool)),
        Request::Create { .. } | Request::Import { .. } | Request::Online { .. } => {
            Ok(Reply::Refused(Refusal::NotBuilt))
        }
    }
}
