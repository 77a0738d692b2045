//! Pieces of a sector's bytes.
ghost use Rattle.std.specs.Prelude.{◌≡◌, true, ◌+◌, ◌<◌, ◌≤◌, ◌++◌, length, take, drop};
ghost use Rattle.mp_base.specs.Block.{zeros};
ghost use Rattle.label_store.specs.Uberblock.{be, number_at};

/// Puts the bytes at `at`, and answers where they end.
pub(crate) fn put(out: &mut [u8], at: usize, bytes: &[u8]) -> usize
    requires { at + length bytes.now ≤ length out.old }
    ensures front { take (at + length bytes.now) out.new ≡ take at out.old ++ bytes.now }
    ensures end { result ≡ at + length bytes.now }
{
    let end = at + bytes.len();
    out[at..end].copy_from_slice(bytes);
    end
}

/// Puts a number as eight bytes, the high one first.
#[tactic(auto, unfolding(crate::specs::Uberblock::be))]
pub(crate) fn put_number(out: &mut [u8], at: usize, number: u64) -> usize
    requires { at + 8 ≤ length out.old }
    ensures front { take (at + 8) out.new ≡ take at out.old ++ be number }
    ensures end { result ≡ at + 8 }
{
    put(out, at, &number.to_be_bytes())
}

/// Puts so many zeros.
pub(crate) fn put_zeros(out: &mut [u8], at: usize, count: usize) -> usize
    requires { at + count ≤ length out.old }
    ensures front { take (at + count) out.new ≡ take at out.old ++ zeros count }
    ensures end { result ≡ at + count }
{
    let end = at + count;
    out[at..end].fill(0);
    end
}

/// The number of which eight bytes stand at `at`.
#[tactic(auto, unfolding(crate::specs::Uberblock::number_at))]
pub(crate) fn number_at(bytes: &[u8], at: usize) -> u64
    requires { at + 8 ≤ length bytes.now }
    ensures { result ≡ number_at at bytes.now }
{
    let mut word = [0; 8];
    word.copy_from_slice(&bytes[at..at + 8]);
    u64::from_be_bytes(word)
}

pub(crate) fn are_equal(first: &[u8], second: &[u8]) -> bool
    ensures yes { result ≡ true → first.now ≡ second.now }
    ensures no { first.now ≡ second.now → result ≡ true }
{
    first == second
}
