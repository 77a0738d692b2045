//! Copies that gave wrong bytes are rewritten with the block.
ghost use Rattle.std.specs.Prelude.{◌≡◌, ◌<◌, length, true};
ghost use Rattle.mirror_io.specs.Copies.{AreApart, AreWithin};
ghost use Rattle.mirror_io.specs.Healing.{Heals, HealsCopy};

use crate::copies::{CopyOf, CopySeen};
use bank_core::Bank;

// Rewrites each copy that showed other bytes, and whose leaf has the block. A failed one changes nothing.
pub(crate) fn heal_all<B: Bank>(
    bank: &mut B,
    copies: &[CopyOf],
    at: u64,
    block: &[u8],
    seen: &mut [CopySeen],
)
    requires block { length block.now ≡ 4096 }
    requires paired { length seen.old ≡ length copies.now }
    requires within { AreWithin (B.view bank.old).size copies.now at }
    requires apart { AreApart copies.now }
    ensures { Heals copies.now copies.now at block.now seen.old seen.new (B.view bank.old) (B.view bank.new) }
{
    for i in 0..copies.len() {
        seen[i] = heal_copy(bank, copies[i], at, block, seen[i]);
    }
}

// Rewrites a copy where it has to be, and says what is known of it then.
fn heal_copy<B: Bank>(bank: &mut B, copy: CopyOf, at: u64, block: &[u8], seen: CopySeen) -> CopySeen
    requires block { length block.now ≡ 4096 }
    requires within { copy.readable ≡ true → at < (B.view bank.old).size copy.dev }
    ensures { HealsCopy copy at block.now seen result (B.view bank.old) (B.view bank.new) }
{
    if !copy.is_due(false) {
        return seen;
    }
    if !seen.is_mismatch() {
        return seen;
    }
    match bank.write(copy.dev, at, block) {
        Ok(()) => CopySeen::Healed,
        Err(_) => CopySeen::Mismatch,
    }
}
