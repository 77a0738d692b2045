//! The answers of a host, as replies.
ghost use Rattle.std.specs.Prelude.{◌≡◌};
ghost use Rattle.script_front.specs.Converting.{freeze_refusal, freeze_reply, offline_refusal, offline_reply, seen_as, suspended, sync_refusal, sync_reply, turn_reply, turned_as, write_refusal, write_reply};

use host_core::Refused;
use mirror_io::CopySeen;
use mp_base::{Group, Seen};
use open_pool::{FreezeFault, OfflineFault, SyncFault, TurnDone, WriteFault};
use pool_lines::{Refusal, Reply, Turned};
use txg_engine::Suspended;

pub(crate) fn write_reply(answer: Result<(), Refused<WriteFault>>) -> Reply
    ensures { result ≡ write_reply answer }
{
    match answer {
        Ok(()) => Reply::Done,
        Err(Refused::NoPool) => Reply::Refused(Refusal::NoPool),
        Err(Refused::Pool(fault)) => Reply::Refused(write_refusal(fault)),
    }
}

fn write_refusal(fault: WriteFault) -> Refusal
    ensures { result ≡ write_refusal fault }
{
    match fault {
        WriteFault::BadAddress { limit } => Refusal::BadAddress { limit },
        WriteFault::Full => Refusal::GroupFull,
        WriteFault::NoSpace { need, free } => Refusal::NoSpace { need, free },
        WriteFault::Memory => Refusal::Memory,
    }
}

pub(crate) fn freeze_reply(answer: Result<Group, Refused<FreezeFault>>) -> Reply
    ensures { result ≡ freeze_reply answer }
{
    match answer {
        Ok(group) => Reply::Numbered(group),
        Err(Refused::NoPool) => Reply::Refused(Refusal::NoPool),
        Err(Refused::Pool(fault)) => Reply::Refused(freeze_refusal(fault)),
    }
}

// Where no group was frozen, no call on its leaves has failed.
fn freeze_refusal(fault: FreezeFault) -> Refusal
    ensures { result ≡ freeze_refusal fault }
{
    match fault {
        FreezeFault::InFlight { group } => Refusal::GroupInFlight { group },
        FreezeFault::NoNumber { limit, count } => Refusal::TreeFull { limit, count },
        FreezeFault::NoBoard { group, top } => Refusal::Suspended {
            group,
            top,
            faults: 0,
        },
        FreezeFault::NoSpace { need, free } => Refusal::NoSpace { need, free },
        FreezeFault::Memory => Refusal::Memory,
    }
}

pub(crate) fn turn_reply(answer: Result<TurnDone, Refused<Suspended>>) -> Reply
    ensures { result ≡ turn_reply answer }
{
    match answer {
        Ok(done) => Reply::Turned(turned_as(done)),
        Err(Refused::NoPool) => Reply::Refused(Refusal::NoPool),
        Err(Refused::Pool(told)) => Reply::Refused(suspended(told)),
    }
}

fn turned_as(done: TurnDone) -> Turned
    ensures { result ≡ turned_as done }
{
    match done {
        TurnDone::Idle => Turned::Idle,
        TurnDone::Write => Turned::Write,
        TurnDone::Flush => Turned::Flush,
        TurnDone::Round(group) => Turned::Round(group),
        TurnDone::Committed(group) => Turned::Committed(group),
    }
}

fn suspended(told: Suspended) -> Refusal
    ensures { result ≡ suspended told }
{
    Refusal::Suspended {
        group: told.group,
        top: told.top,
        faults: told.faults,
    }
}

pub(crate) fn sync_reply(answer: Result<Group, Refused<SyncFault>>) -> Reply
    ensures { result ≡ sync_reply answer }
{
    match answer {
        Ok(group) => Reply::Numbered(group),
        Err(Refused::NoPool) => Reply::Refused(Refusal::NoPool),
        Err(Refused::Pool(fault)) => Reply::Refused(sync_refusal(fault)),
    }
}

fn sync_refusal(fault: SyncFault) -> Refusal
    ensures { result ≡ sync_refusal fault }
{
    match fault {
        SyncFault::Unfrozen(fault) => freeze_refusal(fault),
        SyncFault::Suspended(told) => suspended(told),
        SyncFault::Memory => Refusal::Memory,
    }
}

pub(crate) fn offline_reply(answer: Result<(), Refused<OfflineFault>>) -> Reply
    ensures { result ≡ offline_reply answer }
{
    match answer {
        Ok(()) => Reply::Done,
        Err(Refused::NoPool) => Reply::Refused(Refusal::NoPool),
        Err(Refused::Pool(fault)) => Reply::Refused(offline_refusal(fault)),
    }
}

fn offline_refusal(fault: OfflineFault) -> Refusal
    ensures { result ≡ offline_refusal fault }
{
    match fault {
        OfflineFault::NoVdev => Refusal::NoVdev,
        OfflineFault::Misplaced { rule } => Refusal::WrongPlace { rule },
        OfflineFault::Required { group } => Refusal::Required { group },
    }
}

// What a copy showed that didn't serve.
pub(crate) fn seen_as(copy: CopySeen) -> Seen
    ensures { result ≡ seen_as copy }
{
    match copy {
        CopySeen::Failed => Seen::Failed,
        CopySeen::Mismatch => Seen::Mismatch,
        CopySeen::NotTried | CopySeen::NotReadable | CopySeen::Good | CopySeen::Healed => {
            Seen::Unreadable
        }
    }
}
