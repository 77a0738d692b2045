//! Reads of a block from its copies. They are tried in tree order, those of leaves that owe the block last, and the
//! first that is good answers; so bytes that a device made up are never handed out.
ghost use Rattle.std.specs.Prelude.{◌≡◌, ℕ, ◌<◌, true, false, length, map, Contains, is_ok, OnOk, OnErr};
ghost use Rattle.std.specs.List.{AllZip, filter};
ghost use Rattle.sha2.specs.Sha256.{sha256};
ghost use Rattle.mirror_io.specs.Causes.{IsCause};
ghost use Rattle.mirror_io.specs.Copies.{AreApart, AreWithin, is_due, tries};
ghost use Rattle.mirror_io.specs.Mirror.{ReadsBlock, ReadsGood, given};
ghost use Rattle.mirror_io.specs.Reading.{ReadsCopy, Tries, TriesCopy, outcome_of};
ghost use Rattle.mirror_io.specs.Seen.{unread, is_good};

use crate::copies::{CopyOf, CopySeen, Exhausted};
use crate::heal::heal_all;
use crate::judge::{Judge, SumRule};
use bank_core::Bank;

/// Reads a block of which each of these copies has one, all at the same sector. `out` is a block of 4,096 bytes, and
/// `seen` has a place for each copy. Any number of copies is taken, in tree order; a pool has at most 32.
///
/// At `Ok` the bytes have the sum, and each copy that gave other bytes in this call, and whose leaf has the block,
/// was written with them; a failed rewriting changes no answer. At `Err` nothing was written. In both cases `seen`
/// says what each copy did. After an `Err` nothing is said of `out`.
pub fn read_block<B: Bank>(
    bank: &mut B,
    copies: &[CopyOf],
    at: u64,
    sum: &[u8; 32],
    out: &mut [u8],
    seen: &mut [CopySeen],
) -> Result<(), Exhausted>
    requires block { length out.old ≡ 4096 }
    requires paired { length seen.old ≡ length copies.now }
    requires within { AreWithin (B.view bank.old).size copies.now at }
    requires apart { AreApart copies.now }
    ensures read { ReadsBlock (record { copies = copies.now; at = at; sum = sum.now }) seen.new (given out.new result)
        (B.view bank.old) (B.view bank.new) }
    ensures verified { OnOk result (sha256 out.new ≡ sum.now) }
    ensures good { OnOk result (Contains seen.new CopySeen.Good) }
    ensures causes { AllZip (IsCause (is_ok result) (B.view bank.old).faults (B.view bank.new).faults)
        copies.now seen.new }
{
    let mut rule = SumRule { sum: *sum };
    read_good(bank, copies, at, &mut rule, out, seen)
}

/// The same, where this judge says which bytes are good. At `Ok` it took them, and at `Err` it is as it was.
pub fn read_good<B: Bank, J: Judge>(
    bank: &mut B,
    copies: &[CopyOf],
    at: u64,
    judge: &mut J,
    out: &mut [u8],
    seen: &mut [CopySeen],
) -> Result<(), Exhausted>
    requires block { length out.old ≡ 4096 }
    requires paired { length seen.old ≡ length copies.now }
    requires within { AreWithin (B.view bank.old).size copies.now at }
    requires apart { AreApart copies.now }
    ensures read { ReadsGood (J.Good judge.old) copies.now at seen.new (given out.new result)
        (B.view bank.old) (B.view bank.new) }
    ensures taken { OnOk result (J.Good judge.old out.new) }
    ensures whole { length out.new ≡ 4096 }
    ensures behind { OnOk result (J.Behind judge.old out.new judge.new) }
    ensures unchanged { OnErr result (judge.new ≡ judge.old) }
    ensures good { OnOk result (Contains seen.new CopySeen.Good) }
    ensures causes { AllZip (IsCause (is_ok result) (B.view bank.old).faults (B.view bank.new).faults)
        copies.now seen.new }
{
    clear_seen(copies, seen);
    if !try_all(bank, copies, at, judge, out, seen) {
        return Err(Exhausted);
    }
    heal_all(bank, copies, at, out, seen);
    Ok(())
}

// No copy was tried yet.
fn clear_seen(copies: &[CopyOf], seen: &mut [CopySeen])
    requires { length seen.old ≡ length copies.now }
    ensures { seen.new ≡ map unread copies.now }
{
    for i in 0..copies.len() {
        seen[i] = copies[i].unread();
    }
}

// Tries the copies in their order, up to the first that is good, and says whether there is one.
fn try_all<B: Bank, J: Judge>(
    bank: &mut B,
    copies: &[CopyOf],
    at: u64,
    judge: &mut J,
    out: &mut [u8],
    seen: &mut [CopySeen],
) -> bool
    requires block { length out.old ≡ 4096 }
    requires paired { length seen.old ≡ length copies.now }
    requires within { AreWithin (B.view bank.old).size copies.now at }
    requires apart { AreApart copies.now }
    ensures tries { Tries (J.Good judge.old) copies.now at (tries copies.now)
        (outcome_of result out.new) seen.old seen.new (B.view bank.old) (B.view bank.new) }
    ensures behind { result ≡ true → J.Behind judge.old out.new judge.new }
    ensures unchanged { result ≡ false → judge.new ≡ judge.old }
{
    if try_due(bank, copies, false, at, judge, out, seen) {
        return true;
    }
    try_due(bank, copies, true, at, judge, out, seen)
}

// Tries those whose leaves owe the block, or those whose leaves have it, in tree order.
fn try_due<B: Bank, J: Judge>(
    bank: &mut B,
    copies: &[CopyOf],
    owing: bool,
    at: u64,
    judge: &mut J,
    out: &mut [u8],
    seen: &mut [CopySeen],
) -> bool
    requires block { length out.old ≡ 4096 }
    requires paired { length seen.old ≡ length copies.now }
    requires within { AreWithin (B.view bank.old).size copies.now at }
    requires apart { AreApart copies.now }
    ensures tries { Tries (J.Good judge.old) copies.now at (filter (is_due owing) copies.now)
        (outcome_of result out.new) seen.old seen.new (B.view bank.old) (B.view bank.new) }
    ensures behind { result ≡ true → J.Behind judge.old out.new judge.new }
    ensures unchanged { result ≡ false → judge.new ≡ judge.old }
{
    for i in 0..copies.len() {
        if try_copy(bank, copies[i], owing, at, judge, out, &mut seen[i]) {
            return true;
        }
    }
    false
}

// Reads a copy where it is due, notes what it showed, and says whether it is good.
fn try_copy<B: Bank, J: Judge>(
    bank: &mut B,
    copy: CopyOf,
    owing: bool,
    at: u64,
    judge: &mut J,
    out: &mut [u8],
    seen: &mut CopySeen,
) -> bool
    requires block { length out.old ≡ 4096 }
    requires within { copy.readable ≡ true → at < (B.view bank.old).size copy.dev }
    ensures tries { TriesCopy (J.Good judge.old) copy owing at (outcome_of result out.new) seen.old seen.new
        (B.view bank.old) (B.view bank.new) }
    ensures behind { result ≡ true → J.Behind judge.old out.new judge.new }
    ensures unchanged { result ≡ false → judge.new ≡ judge.old }
{
    if !copy.is_due(owing) {
        return false;
    }
    *seen = read_copy(bank, copy.dev, at, judge, out);
    seen.is_good()
}

// Reads one copy, and says what it showed.
fn read_copy<B: Bank, J: Judge>(
    bank: &mut B,
    dev: u32,
    at: u64,
    judge: &mut J,
    out: &mut [u8],
) -> CopySeen
    requires block { length out.old ≡ 4096 }
    requires inside { at < (B.view bank.old).size dev }
    ensures read { ReadsCopy (J.Good judge.old) dev at out.new result (B.view bank.old) (B.view bank.new) }
    ensures behind { is_good result ≡ true → J.Behind judge.old out.new judge.new }
    ensures unchanged { is_good result ≡ false → judge.new ≡ judge.old }
{
    if bank.read(dev, at, out).is_err() {
        return CopySeen::Failed;
    }
    if !judge.takes(out) {
        return CopySeen::Mismatch;
    }
    CopySeen::Good
}
