//! A script: the input is read to its end, piece by piece.
ghost use Rattle.std.specs.Prelude.{◌≡◌, ◌≢◌, ◌≤◌};
ghost use Rattle.mp_base.specs.Outside.{Rose};
ghost use Rattle.host_core.specs.Standing.{HostStands, IsSeated};
ghost use Rattle.pool_runs.specs.Hosts.{Host as RunHost};
ghost use Rattle.script_front.specs.Finishing.{Finishes};
ghost use Rattle.script_front.specs.Session.{Ran};

use crate::Status;
use crate::input::{feed, handle_line};
use bank_core::Bank;
use host_core::Host;
use mp_base::{Clock, Sink, Source};
use std::alloc::Global;

/// How many bytes are asked of the input at once.
const PIECE: usize = 4096;

// Answers the lines of the input, to its end.
pub(crate) fn script<B: Bank, S: Source, W: Sink, C: Clock>(
    alloc: Global,
    host: &mut Host,
    bank: &mut B,
    input: &mut S,
    output: &mut W,
    clock: &mut C,
) -> Status
    requires seated { IsSeated host.old (B.view bank.old) }
    ensures ran { (h : RunHost) → HostStands host.old (B.view bank.old) h → Ran h result host.old (B.view bank.old) (B.view bank.new)
        (S.left input.old) (S.left input.new) (W.contents output.old) (W.contents output.new) (C.gave clock.old) (C.gave clock.new) }
    ensures source { result ≡ Status.SourceFault → Rose (S.faults input.old) (S.faults input.new) }
    ensures sink { result ≡ Status.SinkFault → Rose (W.faults output.old) (W.faults output.new) }
{
    let mut waiting = Vec::new(alloc);
    let mut buffer = [0u8; PIECE];
    'input: loop {
        let n = match input.read(&mut buffer) {
            Ok(n) => n,
            Err(_) => return Status::SourceFault,
        };
        if n == 0 {
            return finish(alloc, host, bank, &waiting, output, clock);
        }
        if let Err(stop) = feed(alloc, host, bank, &mut waiting, &buffer[..n], output, clock) {
            return stop.status();
        }
    }
}

// The input has ended: what waits is the last line.
fn finish<B: Bank, W: Sink, C: Clock>(
    alloc: Global,
    host: &mut Host,
    bank: &mut B,
    waiting: &[u8],
    output: &mut W,
    clock: &mut C,
) -> Status
    requires seated { IsSeated host.old (B.view bank.old) }
    ensures ends { (h : RunHost) → HostStands host.old (B.view bank.old) h → Finishes h result waiting.now host.old host.new (B.view bank.old) (B.view bank.new)
        (W.contents output.old) (W.contents output.new) (C.gave clock.old) (C.gave clock.new) }
    ensures source { result ≢ Status.SourceFault }
    ensures counts { W.faults output.old ≤ W.faults output.new }
    ensures sink { result ≡ Status.SinkFault → Rose (W.faults output.old) (W.faults output.new) }
{
    if waiting.is_empty() {
        return Status::Done;
    }
    match handle_line(alloc, host, bank, waiting, output, clock) {
        Ok(()) => Status::Done,
        Err(stop) => stop.status(),
    }
}
