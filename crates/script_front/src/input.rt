//! The input, byte by byte: each line is answered as it ends.
ghost use Rattle.std.specs.Prelude.{◌≡◌, ◌≢◌, ℕ, ◌≤◌, [], ◌∷◌, ◌++◌, length, OnErr, OnOk, IfOk, IfErr};
ghost use Rattle.mp_base.specs.Outside.{Rose};
ghost use Rattle.host_core.specs.Standing.{HostStands, IsSeated};
ghost use Rattle.pool_lines.specs.Text.{text_of};
ghost use Rattle.pool_runs.specs.Hosts.{Host as RunHost};
ghost use Rattle.script_front.specs.Feeding.{Feeds, StopsBy, HandlesLine, BreaksLine};
ghost use Rattle.script_front.specs.Lines.{IsOpen, longest};

use crate::answer::answer;
use crate::output::write_all;
use crate::stop::Stop;
use bank_core::Bank;
use host_core::Host;
use mp_base::{Clock, MemFault, Sink};
use pool_lines::{Reply, write_reply};
use std::alloc::Global;

/// The byte at which a line ends.
const NEWLINE: u8 = b'\n';

/// The most bytes of a line.
const LONGEST: usize = 16_384;

// Answers one line, at the second that the clock gives now, and writes its reply line.
pub(crate) fn handle_line<B: Bank, W: Sink, C: Clock>(
    alloc: Global,
    host: &mut Host,
    bank: &mut B,
    line: &[u8],
    output: &mut W,
    clock: &mut C,
) -> Result<(), Stop>
    requires seated { IsSeated host.old (B.view bank.old) }
    ensures seated { IsSeated host.new (B.view bank.new) }
    ensures handles { OnOk result ((h : RunHost) → HostStands host.old (B.view bank.old) h → HandlesLine h line.now host.old host.new (B.view bank.old) (B.view bank.new)
        (W.contents output.old) (W.contents output.new) (C.gave clock.old) (C.gave clock.new)) }
    ensures breaks { OnErr result ((h : RunHost) → HostStands host.old (B.view bank.old) h → BreaksLine h line.now host.old host.new (B.view bank.old) (B.view bank.new)
        (W.contents output.old) (W.contents output.new) (C.gave clock.old) (C.gave clock.new)) }
    ensures whole { result ≢ Err Stop.TooLong }
    ensures counts { W.faults output.old ≤ W.faults output.new }
    ensures cause { result ≡ Err Stop.Sink → Rose (W.faults output.old) (W.faults output.new) }
{
    let _second = clock.now();
    let reply = match answer(alloc, host, bank, line) {
        Ok(reply) => reply,
        Err(MemFault) => return Err(Stop::Memory),
    };
    let text = match reply_line(alloc, &reply) {
        Ok(text) => text,
        Err(MemFault) => return Err(Stop::Memory),
    };
    match write_all(output, &text) {
        Ok(()) => Ok(()),
        Err(_) => Err(Stop::Sink),
    }
}

// The text of a reply with the byte 10 that ends it.
fn reply_line(alloc: Global, reply: &Reply) -> Result<Vec<u8>, MemFault>
    ensures { IfOk result (λ text. text.items ≡ text_of reply.now ++ 10 ∷ []) }
{
    let mut text = write_reply(alloc, reply)?;
    text.push(NEWLINE)?;
    Ok(text)
}

// Takes one byte of the input behind what waits for its line's end.
fn take_byte<B: Bank, W: Sink, C: Clock>(
    alloc: Global,
    host: &mut Host,
    bank: &mut B,
    waiting: &mut Vec<u8>,
    b: u8,
    output: &mut W,
    clock: &mut C,
) -> Result<(), Stop>
    requires seated { IsSeated host.old (B.view bank.old) }
    requires open_line { IsOpen waiting.old.items }
    requires fits { length waiting.old.items ≤ longest }
    ensures seated { IsSeated host.new (B.view bank.new) }
    ensures feeds { OnOk result ((h : RunHost) → HostStands host.old (B.view bank.old) h → Feeds h waiting.old.items (b ∷ []) waiting.new.items
        host.old host.new (B.view bank.old) (B.view bank.new) (W.contents output.old) (W.contents output.new) (C.gave clock.old) (C.gave clock.new)) }
    ensures stops { IfErr result (λ stop. (h : RunHost) → HostStands host.old (B.view bank.old) h → StopsBy stop h waiting.old.items (b ∷ [])
        host.old host.new (B.view bank.old) (B.view bank.new) (W.contents output.old) (W.contents output.new) (C.gave clock.old) (C.gave clock.new)) }
    ensures open_line { OnOk result (IsOpen waiting.new.items) }
    ensures fits { OnOk result (length waiting.new.items ≤ longest) }
    ensures counts { W.faults output.old ≤ W.faults output.new }
    ensures cause { result ≡ Err Stop.Sink → Rose (W.faults output.old) (W.faults output.new) }
{
    if b == NEWLINE {
        return end_line(alloc, host, bank, waiting, output, clock);
    }
    if waiting.len() >= LONGEST {
        return Err(Stop::TooLong);
    }
    match waiting.push(b) {
        Ok(()) => Ok(()),
        Err(_) => Err(Stop::Memory),
    }
}

// A line has ended: it is answered, and nothing waits.
fn end_line<B: Bank, W: Sink, C: Clock>(
    alloc: Global,
    host: &mut Host,
    bank: &mut B,
    waiting: &mut Vec<u8>,
    output: &mut W,
    clock: &mut C,
) -> Result<(), Stop>
    requires seated { IsSeated host.old (B.view bank.old) }
    requires open_line { IsOpen waiting.old.items }
    requires fits { length waiting.old.items ≤ longest }
    ensures seated { IsSeated host.new (B.view bank.new) }
    ensures feeds { OnOk result ((h : RunHost) → HostStands host.old (B.view bank.old) h → Feeds h waiting.old.items (10 ∷ []) waiting.new.items
        host.old host.new (B.view bank.old) (B.view bank.new) (W.contents output.old) (W.contents output.new) (C.gave clock.old) (C.gave clock.new)) }
    ensures stops { IfErr result (λ stop. (h : RunHost) → HostStands host.old (B.view bank.old) h → StopsBy stop h waiting.old.items (10 ∷ [])
        host.old host.new (B.view bank.old) (B.view bank.new) (W.contents output.old) (W.contents output.new) (C.gave clock.old) (C.gave clock.new)) }
    ensures empty { OnOk result (waiting.new.items ≡ []) }
    ensures counts { W.faults output.old ≤ W.faults output.new }
    ensures cause { result ≡ Err Stop.Sink → Rose (W.faults output.old) (W.faults output.new) }
{
    match handle_line(alloc, host, bank, waiting, output, clock) {
        Ok(()) => {
            waiting.clear();
            Ok(())
        }
        Err(stop) => Err(stop),
    }
}

// Takes a piece of the input.
pub(crate) fn feed<B: Bank, W: Sink, C: Clock>(
    alloc: Global,
    host: &mut Host,
    bank: &mut B,
    waiting: &mut Vec<u8>,
    piece: &[u8],
    output: &mut W,
    clock: &mut C,
) -> Result<(), Stop>
    requires seated { IsSeated host.old (B.view bank.old) }
    requires open_line { IsOpen waiting.old.items }
    requires fits { length waiting.old.items ≤ longest }
    ensures seated { IsSeated host.new (B.view bank.new) }
    ensures feeds { OnOk result ((h : RunHost) → HostStands host.old (B.view bank.old) h → Feeds h waiting.old.items piece.now waiting.new.items
        host.old host.new (B.view bank.old) (B.view bank.new) (W.contents output.old) (W.contents output.new) (C.gave clock.old) (C.gave clock.new)) }
    ensures stops { IfErr result (λ stop. (h : RunHost) → HostStands host.old (B.view bank.old) h → StopsBy stop h waiting.old.items piece.now
        host.old host.new (B.view bank.old) (B.view bank.new) (W.contents output.old) (W.contents output.new) (C.gave clock.old) (C.gave clock.new)) }
    ensures open_line { OnOk result (IsOpen waiting.new.items) }
    ensures fits { OnOk result (length waiting.new.items ≤ longest) }
    ensures counts { W.faults output.old ≤ W.faults output.new }
    ensures cause { result ≡ Err Stop.Sink → Rose (W.faults output.old) (W.faults output.new) }
{
    for b in piece {
        match take_byte(alloc, host, bank, waiting, *b, output, clock) {
            Ok(()) => {}
            Err(stop) => return Err(stop),
        }
    }
    Ok(())
}
