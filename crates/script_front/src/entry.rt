//! The program's main entry over any bank, source, sink and clock.
ghost use Rattle.std.specs.Prelude.{◌≡◌, ◌⊎◌, ◌↔◌, map, true, false};
ghost use Rattle.std.specs.String.{string_bytes};
ghost use Rattle.mp_base.specs.Outside.{Rose};
ghost use Rattle.script_front.specs.Session.{IsQuiet, RanScript};
ghost use Rattle.script_front.specs.Words.{is_script};

use crate::Status;
use crate::found::find_devices;
use crate::script::script;
use bank_core::Bank;
use host_core::{Host, lines_are_runs};
use mp_base::{Clock, MemFault, Sink, Source};
use pool_runs::runs_keep_each_pool;
use std::alloc::Global;

/// Runs the command of these words, `script`: it answers each line of the input by one reply line.
///
/// `ran` is the theorem: what was written are the reply lines of one list of entries, which ask what the lines of the
/// input ask, whose seconds are those that the clock gave, and whose device calls are exactly the bank's; and where the bank
/// tells, they are a run, which keeps each pool (docs/MODEL.md, "A run").
pub fn run<B: Bank, S: Source, W: Sink, C: Clock>(
    alloc: Global,
    words: &[String],
    bank: &mut B,
    input: &mut S,
    output: &mut W,
    clock: &mut C,
) -> Status
    ensures usage { (result ≡ Status.Usage) ↔ (is_script (map string_bytes words.now) ≡ false) }
    ensures idle { result ≡ Status.Usage → IsQuiet (B.view bank.old) (B.view bank.new)
        (S.left input.old) (S.left input.new) (W.contents output.old) (W.contents output.new) (C.gave clock.old) (C.gave clock.new) }
    ensures unsought { result ≡ Status.Usage → (B.view bank.new).lookup_faults ≡ (B.view bank.old).lookup_faults }
    ensures ran { is_script (map string_bytes words.now) ≡ true
        → RanScript result (B.view bank.old) (B.view bank.new)
        (S.left input.old) (S.left input.new) (W.contents output.old) (W.contents output.new) (C.gave clock.old) (C.gave clock.new)
        ⊎ ((result ≡ Status.Memory) × IsQuiet (B.view bank.old) (B.view bank.new)
        (S.left input.old) (S.left input.new) (W.contents output.old) (W.contents output.new) (C.gave clock.old) (C.gave clock.new)) }
    ensures source { result ≡ Status.SourceFault → Rose (S.faults input.old) (S.faults input.new) }
    ensures sink { result ≡ Status.SinkFault → Rose (W.faults output.old) (W.faults output.new) }
{
    if !is_script(words) {
        return Status::Usage;
    }
    let table = match find_devices(alloc, bank) {
        Ok(table) => table,
        Err(MemFault) => return Status::Memory,
    };
    let mut host = Host::new(alloc, table);
    // their clauses are the laws by which the lines are a run, and the run keeps each pool
    lines_are_runs();
    runs_keep_each_pool();
    script(alloc, &mut host, bank, input, output, clock)
}

// Whether the words are a command of the program.
fn is_script(words: &[String]) -> bool
    ensures { result ≡ is_script (map string_bytes words.now) }
{
    words.len() == 1 && words[0].as_str() == "script"
}
