//! Pages of a map, as bytes. A page has 64 pointers of 52 bytes each, whose numbers have the high byte first, and is
//! filled up to 4,096 bytes with zeros:
//!
//! | offset | bytes | field |
//! |---|---|---|
//! | 52j | 8 | birth of pointer j |
//! | 52j + 8 | 4 | the place's top, counted from 0 |
//! | 52j + 12 | 8 | the place's sector |
//! | 52j + 20 | 32 | SHA-256 of the bytes at that place |
//! | 3328 | 768 | zeros |
//!
//! A hole has 52 zeros.
ghost use Rattle.std.specs.Prelude.{◌≡◌, ℕ, ◌+◌, ◌*◌, ◌<◌, ◌≤◌, ◌++◌, true, List, length, take, drop};
ghost use Rattle.mp_base.specs.Block.{zeros};
ghost use Rattle.mp_base.specs.declared.place.Pointer.{Pointer};
ghost use Rattle.block_map.specs.Pointers.{IsInForm};
ghost use Rattle.block_map.specs.Pages.{be4, be8, pointer_bytes, page_bytes, long_in, short_in, pointer_in, pointers_in, AreInForm};

use mp_base::{BLOCK_BYTES, Group, Place, Pointer};

/// The bytes of a pointer.
const POINTER_BYTES: usize = 52;

/// The zeros behind the pointers.
const PADDING: usize = 768;

/// Puts the bytes at `at`, and answers where they end.
fn put(out: &mut [u8], at: usize, bytes: &[u8]) -> usize
    requires { at + length bytes.now ≤ length out.old }
    ensures front { take (at + length bytes.now) out.new ≡ take at out.old ++ bytes.now }
    ensures end { result ≡ at + length bytes.now }
{
    let end = at + bytes.len();
    out[at..end].copy_from_slice(bytes);
    end
}

#[tactic(auto, unfolding(crate::specs::Pages::be8))]
fn put_long(out: &mut [u8], at: usize, number: u64) -> usize
    requires { at + 8 ≤ length out.old }
    ensures front { take (at + 8) out.new ≡ take at out.old ++ be8 number }
    ensures end { result ≡ at + 8 }
{
    put(out, at, &number.to_be_bytes())
}

#[tactic(auto, unfolding(crate::specs::Pages::be4))]
fn put_short(out: &mut [u8], at: usize, number: u32) -> usize
    requires { at + 4 ≤ length out.old }
    ensures front { take (at + 4) out.new ≡ take at out.old ++ be4 number }
    ensures end { result ≡ at + 4 }
{
    put(out, at, &number.to_be_bytes())
}

/// Puts so many zeros.
fn put_zeros(out: &mut [u8], at: usize, count: usize) -> usize
    requires { at + count ≤ length out.old }
    ensures front { take (at + count) out.new ≡ take at out.old ++ zeros count }
    ensures end { result ≡ at + count }
{
    let end = at + count;
    out[at..end].fill(0);
    end
}

fn put_pointer(out: &mut [u8], at: usize, pointer: &Pointer) -> usize
    requires { at + 52 ≤ length out.old }
    ensures front { take (at + 52) out.new ≡ take at out.old ++ pointer_bytes pointer.now }
    ensures end { result ≡ at + 52 }
{
    let at = put_long(out, at, pointer.birth.0);
    let at = put_short(out, at, pointer.place.top);
    let at = put_long(out, at, pointer.place.sector);
    put(out, at, &pointer.sum)
}

/// Writes the page of these pointers.
pub fn write_page(pointers: &[Pointer], out: &mut [u8])
    requires pointers { length pointers.now ≡ 64 }
    requires room { length out.old ≡ 4096 }
    ensures { out.new ≡ page_bytes pointers.now }
{
    let mut at = 0;
    for pointer in pointers {
        at = put_pointer(out, at, pointer);
    }
    put_zeros(out, at, PADDING);
}

/// Reads the pointers of a page. False exactly where the bytes are no page of pointers in their form.
pub fn read_page(bytes: &[u8], out: &mut [Pointer]) -> bool
    requires bytes { length bytes.now ≡ 4096 }
    requires room { length out.old ≡ 64 }
    ensures page { result ≡ true → bytes.now ≡ page_bytes out.new }
    ensures form { result ≡ true → AreInForm out.new }
    ensures exact { (pointers : List Pointer) → AreInForm pointers → bytes.now ≡ page_bytes pointers
        → (result ≡ true) × (out.new ≡ pointers) }
{
    read_pointers(bytes, out);
    let mut again = [0; BLOCK_BYTES];
    write_page(out, &mut again);
    are_equal(bytes, &again)
}

fn read_pointers(bytes: &[u8], out: &mut [Pointer])
    requires bytes { length bytes.now ≡ 4096 }
    requires room { length out.old ≡ 64 }
    ensures value { out.new ≡ pointers_in bytes.now }
    ensures form { AreInForm out.new }
{
    for (j, pointer) in out.iter_mut().enumerate() {
        *pointer = pointer_in(bytes, POINTER_BYTES * j);
    }
}

/// The pointer whose bytes stand at `at`.
fn pointer_in(bytes: &[u8], at: usize) -> Pointer
    requires { at + 52 ≤ length bytes.now }
    ensures value { result ≡ pointer_in at bytes.now }
    ensures form { IsInForm result }
{
    let mut sum = [0; 32];
    sum.copy_from_slice(&bytes[at + 20..at + 52]);
    Pointer {
        birth: Group(long_in(bytes, at)),
        place: Place {
            top: short_in(bytes, at + 8),
            sector: long_in(bytes, at + 12),
        },
        sum,
    }
}

#[tactic(auto, unfolding(crate::specs::Pages::long_in))]
fn long_in(bytes: &[u8], at: usize) -> u64
    requires { at + 8 ≤ length bytes.now }
    ensures { result ≡ long_in at bytes.now }
{
    let mut word = [0; 8];
    word.copy_from_slice(&bytes[at..at + 8]);
    u64::from_be_bytes(word)
}

#[tactic(auto, unfolding(crate::specs::Pages::short_in))]
fn short_in(bytes: &[u8], at: usize) -> u32
    requires { at + 4 ≤ length bytes.now }
    ensures { result ≡ short_in at bytes.now }
{
    let mut word = [0; 4];
    word.copy_from_slice(&bytes[at..at + 4]);
    u32::from_be_bytes(word)
}

fn are_equal(first: &[u8], second: &[u8]) -> bool
    ensures yes { result ≡ true → first.now ≡ second.now }
    ensures no { first.now ≡ second.now → result ≡ true }
{
    first == second
}
