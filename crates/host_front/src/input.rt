//! The input, byte by byte: each line is answered as it ends.
ghost use Rattle.std.specs.Prelude.{◌≡◌, ◌≢◌, ℕ, ◌≤◌, List, [], ◌∷◌, ◌++◌, length, OnErr, OnOk, IfOk, IfErr};
ghost use Rattle.mp_base.specs.Outside.{Rose};
ghost use Rattle.pool_wire.specs.Text.{text_of};
ghost use Rattle.host_front.specs.Feeding.{Feeds, StopsBy, HandlesLine, BreaksLine};
ghost use Rattle.host_front.specs.Lines.{IsOpen, longest};
ghost use Rattle.host_machine.specs.Machine.{HostState};
ghost use Rattle.host_front.specs.Standing.{Stands, HostIsSeated};

use crate::Host;
use crate::output::write_all;
use crate::stop::Stop;
use bank_core::Bank;
use host_machine::hosts_stay_fit;
use mp_base::{Clock, MemFault, Sink};
use pool_wire::{Reply, write_reply};
use std::alloc::Global;

/// The byte at which a line ends.
const NEWLINE: u8 = b'\n';

/// The most bytes of a line.
const LONGEST: usize = 16_384;

// Answers one line, at the second that the clock gives now, and writes its reply line.
pub(crate) fn handle_line<B: Bank, W: Sink, C: Clock>(
    host: &mut Host,
    bank: &mut B,
    line: &[u8],
    output: &mut W,
    clock: &mut C,
) -> Result<(), Stop>
    requires seated { HostIsSeated (B.view bank.old).size host.old }
    ensures size { (d : ℕ) → (B.view bank.new).size d ≡ (B.view bank.old).size d }
    ensures numbers { (name : List ℕ) → (B.view bank.new).number_of name ≡ (B.view bank.old).number_of name }
    ensures lookups { (B.view bank.new).lookup_faults ≡ (B.view bank.old).lookup_faults }
    ensures seated { HostIsSeated (B.view bank.new).size host.new }
    ensures handles { OnOk result ((h : HostState) → Stands (B.view bank.old).size host.old h → HandlesLine h line.now (B.view bank.old).told (B.view bank.new).told
        (B.view bank.old).faults (B.view bank.new).faults (W.contents output.old) (W.contents output.new)
        (C.gave clock.old) (C.gave clock.new) (B.view bank.new).size host.new) }
    ensures breaks { OnErr result ((h : HostState) → Stands (B.view bank.old).size host.old h → BreaksLine h line.now (B.view bank.old).told (B.view bank.new).told
        (B.view bank.old).faults (B.view bank.new).faults (W.contents output.old) (W.contents output.new)
        (C.gave clock.old) (C.gave clock.new)) }
    ensures whole { result ≢ Err Stop.TooLong }
    ensures counts { W.faults output.old ≤ W.faults output.new }
    ensures cause { result ≡ Err Stop.Sink → Rose (W.faults output.old) (W.faults output.new) }
{
    let time = clock.now();
    let reply = host.answer(bank, line, time);
    // the law by which the state behind the line is again one that a run may reach
    hosts_stay_fit();
    let text = match reply_line(host.alloc, &reply) {
        Ok(text) => text,
        Err(MemFault) => return Err(Stop::Memory),
    };
    match write_all(output, &text) {
        Ok(()) => Ok(()),
        Err(_) => Err(Stop::Sink),
    }
}

// The text of a reply with the byte 10 that ends it.
fn reply_line(alloc: Global, reply: &Reply) -> Result<Vec<u8>, MemFault>
    ensures { IfOk result (λ text. text.items ≡ text_of reply.now ++ 10 ∷ []) }
{
    let mut text = write_reply(alloc, reply)?;
    text.push(NEWLINE)?;
    Ok(text)
}

// Takes one byte of the input behind what waits for its line's end.
fn take_byte<B: Bank, W: Sink, C: Clock>(
    host: &mut Host,
    bank: &mut B,
    waiting: &mut Vec<u8>,
    b: u8,
    output: &mut W,
    clock: &mut C,
) -> Result<(), Stop>
    requires seated { HostIsSeated (B.view bank.old).size host.old }
    requires open_line { IsOpen waiting.old.items }
    requires fits { length waiting.old.items ≤ longest }
    ensures size { (d : ℕ) → (B.view bank.new).size d ≡ (B.view bank.old).size d }
    ensures numbers { (name : List ℕ) → (B.view bank.new).number_of name ≡ (B.view bank.old).number_of name }
    ensures lookups { (B.view bank.new).lookup_faults ≡ (B.view bank.old).lookup_faults }
    ensures seated { HostIsSeated (B.view bank.new).size host.new }
    ensures feeds { OnOk result ((h : HostState) → Stands (B.view bank.old).size host.old h → Feeds h waiting.old.items (b ∷ []) waiting.new.items (B.view bank.old).told (B.view bank.new).told
        (B.view bank.old).faults (B.view bank.new).faults (W.contents output.old) (W.contents output.new)
        (C.gave clock.old) (C.gave clock.new) (B.view bank.new).size host.new) }
    ensures stops { IfErr result (λ stop. (h : HostState) → Stands (B.view bank.old).size host.old h → StopsBy stop h waiting.old.items (b ∷ []) (B.view bank.old).told (B.view bank.new).told
        (B.view bank.old).faults (B.view bank.new).faults (W.contents output.old) (W.contents output.new)
        (C.gave clock.old) (C.gave clock.new)) }
    ensures open_line { OnOk result (IsOpen waiting.new.items) }
    ensures fits { OnOk result (length waiting.new.items ≤ longest) }
    ensures counts { W.faults output.old ≤ W.faults output.new }
    ensures cause { result ≡ Err Stop.Sink → Rose (W.faults output.old) (W.faults output.new) }
{
    if b == NEWLINE {
        return end_line(host, bank, waiting, output, clock);
    }
    if waiting.len() >= LONGEST {
        return Err(Stop::TooLong);
    }
    match waiting.push(b) {
        Ok(()) => Ok(()),
        Err(_) => Err(Stop::Memory),
    }
}

// A line has ended: it is answered, and nothing waits.
fn end_line<B: Bank, W: Sink, C: Clock>(
    host: &mut Host,
    bank: &mut B,
    waiting: &mut Vec<u8>,
    output: &mut W,
    clock: &mut C,
) -> Result<(), Stop>
    requires seated { HostIsSeated (B.view bank.old).size host.old }
    requires open_line { IsOpen waiting.old.items }
    requires fits { length waiting.old.items ≤ longest }
    ensures size { (d : ℕ) → (B.view bank.new).size d ≡ (B.view bank.old).size d }
    ensures numbers { (name : List ℕ) → (B.view bank.new).number_of name ≡ (B.view bank.old).number_of name }
    ensures lookups { (B.view bank.new).lookup_faults ≡ (B.view bank.old).lookup_faults }
    ensures seated { HostIsSeated (B.view bank.new).size host.new }
    ensures feeds { OnOk result ((h : HostState) → Stands (B.view bank.old).size host.old h → Feeds h waiting.old.items (10 ∷ []) waiting.new.items (B.view bank.old).told (B.view bank.new).told
        (B.view bank.old).faults (B.view bank.new).faults (W.contents output.old) (W.contents output.new)
        (C.gave clock.old) (C.gave clock.new) (B.view bank.new).size host.new) }
    ensures stops { IfErr result (λ stop. (h : HostState) → Stands (B.view bank.old).size host.old h → StopsBy stop h waiting.old.items (10 ∷ []) (B.view bank.old).told (B.view bank.new).told
        (B.view bank.old).faults (B.view bank.new).faults (W.contents output.old) (W.contents output.new)
        (C.gave clock.old) (C.gave clock.new)) }
    ensures empty { OnOk result (waiting.new.items ≡ []) }
    ensures counts { W.faults output.old ≤ W.faults output.new }
    ensures cause { result ≡ Err Stop.Sink → Rose (W.faults output.old) (W.faults output.new) }
{
    match handle_line(host, bank, waiting, output, clock) {
        Ok(()) => {
            waiting.clear();
            Ok(())
        }
        Err(stop) => Err(stop),
    }
}

// Takes a piece of the input.
pub(crate) fn feed<B: Bank, W: Sink, C: Clock>(
    host: &mut Host,
    bank: &mut B,
    waiting: &mut Vec<u8>,
    piece: &[u8],
    output: &mut W,
    clock: &mut C,
) -> Result<(), Stop>
    requires seated { HostIsSeated (B.view bank.old).size host.old }
    requires open_line { IsOpen waiting.old.items }
    requires fits { length waiting.old.items ≤ longest }
    ensures size { (d : ℕ) → (B.view bank.new).size d ≡ (B.view bank.old).size d }
    ensures numbers { (name : List ℕ) → (B.view bank.new).number_of name ≡ (B.view bank.old).number_of name }
    ensures lookups { (B.view bank.new).lookup_faults ≡ (B.view bank.old).lookup_faults }
    ensures seated { HostIsSeated (B.view bank.new).size host.new }
    ensures feeds { OnOk result ((h : HostState) → Stands (B.view bank.old).size host.old h → Feeds h waiting.old.items piece.now waiting.new.items (B.view bank.old).told (B.view bank.new).told
        (B.view bank.old).faults (B.view bank.new).faults (W.contents output.old) (W.contents output.new)
        (C.gave clock.old) (C.gave clock.new) (B.view bank.new).size host.new) }
    ensures stops { IfErr result (λ stop. (h : HostState) → Stands (B.view bank.old).size host.old h → StopsBy stop h waiting.old.items piece.now (B.view bank.old).told (B.view bank.new).told
        (B.view bank.old).faults (B.view bank.new).faults (W.contents output.old) (W.contents output.new)
        (C.gave clock.old) (C.gave clock.new)) }
    ensures open_line { OnOk result (IsOpen waiting.new.items) }
    ensures fits { OnOk result (length waiting.new.items ≤ longest) }
    ensures counts { W.faults output.old ≤ W.faults output.new }
    ensures cause { result ≡ Err Stop.Sink → Rose (W.faults output.old) (W.faults output.new) }
{
    for b in piece {
        match take_byte(host, bank, waiting, *b, output, clock) {
            Ok(()) => {}
            Err(stop) => return Err(stop),
        }
    }
    Ok(())
}
