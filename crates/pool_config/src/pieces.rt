//! Pieces of a configuration's bytes. Each call puts one at a place, and answers where it ends.
ghost use Rattle.std.specs.Prelude.{◌≡◌, ◌+◌, ◌<◌, ◌≤◌, ◌∷◌, [], length};
ghost use Rattle.mp_base.specs.Block.{zeros};
ghost use Rattle.pool_config.specs.Pieces.{Puts};
ghost use Rattle.pool_config.specs.Spelling.{be32, be64, text_bytes};

use mp_base::Name;

pub(crate) fn put(out: &mut [u8], at: usize, piece: &[u8]) -> usize
    requires { at + length piece.now ≤ length out.old }
    ensures piece { Puts out.old at piece.now out.new result }
    ensures stop { result ≡ at + length piece.now }
{
    let stop = at + piece.len();
    out[at..stop].copy_from_slice(piece);
    stop
}

pub(crate) fn put_u8(out: &mut [u8], at: usize, byte: u8) -> usize
    requires { at < length out.old }
    ensures piece { Puts out.old at (byte ∷ []) out.new result }
    ensures stop { result ≡ at + 1 }
{
    put(out, at, &[byte])
}

#[tactic(auto, unfolding(crate::specs::Spelling::be32))]
pub(crate) fn put_u32(out: &mut [u8], at: usize, number: u32) -> usize
    requires { at + 4 ≤ length out.old }
    ensures piece { Puts out.old at (be32 number) out.new result }
    ensures stop { result ≡ at + 4 }
{
    put(out, at, &number.to_be_bytes())
}

#[tactic(auto, unfolding(crate::specs::Spelling::be64))]
pub(crate) fn put_u64(out: &mut [u8], at: usize, number: u64) -> usize
    requires { at + 8 ≤ length out.old }
    ensures piece { Puts out.old at (be64 number) out.new result }
    ensures stop { result ≡ at + 8 }
{
    put(out, at, &number.to_be_bytes())
}

/// A name as a text: a byte, its length, and its bytes.
pub(crate) fn put_name(out: &mut [u8], at: usize, name: &Name) -> usize
    requires { at + 65 ≤ length out.old }
    ensures piece { Puts out.old at (text_bytes name.now) out.new result }
    ensures stop { result ≤ at + 65 }
{
    name.spells_a_name();
    let bytes = name.as_bytes();
    let at = put_u8(out, at, bytes.len() as u8);
    put(out, at, bytes)
}

pub(crate) fn put_zeros(out: &mut [u8], at: usize, count: usize) -> usize
    requires { at + count ≤ length out.old }
    ensures piece { Puts out.old at (zeros count) out.new result }
    ensures stop { result ≡ at + count }
{
    let stop = at + count;
    out[at..stop].fill(0);
    stop
}
