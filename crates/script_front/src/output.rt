//! Writing all of a text, in whatever pieces the output takes it.
ghost use Rattle.std.specs.Prelude.{◌≡◌, ℕ, ◌≤◌, take, length, OnErr, OnOk};
ghost use Rattle.mp_base.specs.Outside.{Rose, Taken};
ghost use Rattle.script_front.specs.Writing.{WritesFront};

use mp_base::{Failed, Sink};

/// Writes the whole text. At `Err` a front of it was written.
pub(crate) fn write_all<W: Sink>(output: &mut W, text: &[u8]) -> Result<(), Failed>
    ensures all { OnOk result (Taken (W.contents output.old) (W.contents output.new) text.now) }
    ensures front { OnErr result (WritesFront (W.contents output.old) (W.contents output.new) text.now) }
    ensures counts { W.faults output.old ≤ W.faults output.new }
    ensures cause { OnErr result (Rose (W.faults output.old) (W.faults output.new)) }
{
    let mut rest = text;
    while !rest.is_empty() {
        let n = output.write(rest)?;
        rest = &rest[n..];
    }
    Ok(())
}
