//! A script: the input is read to its end, piece by piece.
ghost use Rattle.std.specs.Prelude.{◌≡◌, ◌≢◌, ℕ, ◌≤◌, List};
ghost use Rattle.mp_base.specs.Outside.{Rose};
ghost use Rattle.host_machine.specs.Machine.{HostState};
ghost use Rattle.host_front.specs.Session.{Ran};
ghost use Rattle.host_front.specs.Finishing.{Finishes};
ghost use Rattle.host_front.specs.Standing.{Stands, HostIsSeated};

use crate::input::{feed, handle_line};
use crate::{Host, Status};
use bank_core::Bank;
use mp_base::{Clock, Sink, Source};

/// How many bytes are asked of the input at once.
const PIECE: usize = 4096;

// Answers the lines of the input, to its end.
pub(crate) fn script<B: Bank, S: Source, W: Sink, C: Clock>(
    host: &mut Host,
    bank: &mut B,
    input: &mut S,
    output: &mut W,
    clock: &mut C,
) -> Status
    requires seated { HostIsSeated (B.view bank.old).size host.old }
    ensures size { (d : ℕ) → (B.view bank.new).size d ≡ (B.view bank.old).size d }
    ensures numbers { (name : List ℕ) → (B.view bank.new).number_of name ≡ (B.view bank.old).number_of name }
    ensures lookups { (B.view bank.new).lookup_faults ≡ (B.view bank.old).lookup_faults }
    ensures ran { (h : HostState) → Stands (B.view bank.old).size host.old h → Ran h result (B.view bank.old).told (B.view bank.new).told (B.view bank.old).faults (B.view bank.new).faults
        (S.left input.old) (S.left input.new) (W.contents output.old) (W.contents output.new) (C.gave clock.old) (C.gave clock.new) }
    ensures source { result ≡ Status.SourceFault → Rose (S.faults input.old) (S.faults input.new) }
    ensures sink { result ≡ Status.SinkFault → Rose (W.faults output.old) (W.faults output.new) }
{
    let mut waiting = Vec::new(host.alloc);
    let mut buffer = [0u8; PIECE];
    'input: loop {
        let n = match input.read(&mut buffer) {
            Ok(n) => n,
            Err(_) => return Status::SourceFault,
        };
        if n == 0 {
            return finish(host, bank, &waiting, output, clock);
        }
        if let Err(stop) = feed(host, bank, &mut waiting, &buffer[..n], output, clock) {
            return stop.status();
        }
    }
}

// The input has ended: what waits is the last line.
fn finish<B: Bank, W: Sink, C: Clock>(
    host: &mut Host,
    bank: &mut B,
    waiting: &[u8],
    output: &mut W,
    clock: &mut C,
) -> Status
    requires seated { HostIsSeated (B.view bank.old).size host.old }
    ensures size { (d : ℕ) → (B.view bank.new).size d ≡ (B.view bank.old).size d }
    ensures numbers { (name : List ℕ) → (B.view bank.new).number_of name ≡ (B.view bank.old).number_of name }
    ensures lookups { (B.view bank.new).lookup_faults ≡ (B.view bank.old).lookup_faults }
    ensures ends { (h : HostState) → Stands (B.view bank.old).size host.old h → Finishes h result waiting.now (B.view bank.old).told (B.view bank.new).told (B.view bank.old).faults (B.view bank.new).faults
        (W.contents output.old) (W.contents output.new) (C.gave clock.old) (C.gave clock.new) }
    ensures source { result ≢ Status.SourceFault }
    ensures counts { W.faults output.old ≤ W.faults output.new }
    ensures sink { result ≡ Status.SinkFault → Rose (W.faults output.old) (W.faults output.new) }
{
    if waiting.is_empty() {
        return Status::Done;
    }
    match handle_line(host, bank, waiting, output, clock) {
        Ok(()) => Status::Done,
        Err(stop) => stop.status(),
    }
}
