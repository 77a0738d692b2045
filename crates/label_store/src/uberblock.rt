//! Uberblocks. Each fills one sector, whose numbers have eight bytes, the high one first:
//!
//! | offset | bytes | field |
//! |---|---|---|
//! | 0 | 8 | magic, `0x00bab10c` |
//! | 8 | 8 | version, 1 |
//! | 16 | 8 | pool |
//! | 24 | 8 | member |
//! | 32 | 8 | number, 0 to 2^62 |
//! | 40 | 8 | length of the configuration, 0 to 114,688 |
//! | 48 | 32 | SHA-256 (FIPS 180-4) of the configuration |
//! | 80 | 3984 | zeros |
//! | 4064 | 32 | SHA-256 of bytes 0 to 4063 |
//!
//! A sector holds an uberblock exactly where all of this is so, and number 0 comes with length 0 and
//! a sum of zeros.
ghost use Rattle.std.specs.Prelude.{◌≡◌, true, Some, length, take, drop, IfSome};
ghost use Rattle.mp_base.specs.Block.{zeros};
ghost use Rattle.label_store.specs.Uberblock.{uberblock_head, uberblock_bytes, fields_of, IsInRange, IsUberblock};

use crate::bytes::{are_equal, number_at, put, put_number, put_zeros};
use bank_core::SECTOR_BYTES;
use mp_base::{Group, Guid};
use sha2::{Digest, Sha256};

const MAGIC: u64 = 0x00ba_b10c;

const VERSION: u64 = 1;

/// The last number.
pub const LAST_NUMBER: u64 = 1 << 62;

/// The most bytes of a configuration: the 28 sectors of its part of a label.
pub const MOST_CONFIG_BYTES: u64 = 114_688;

/// Where the zeros of an uberblock begin, and its last sum.
const ZEROS_AT: usize = 80;

const SUM_AT: usize = 4064;

/// An uberblock: it names a pool and a member of it, and the configuration of a number by its length in
/// bytes and its sum. Number 0 names a member without a configuration.
#[derive(Clone, Copy, Debug, PartialEq, Eq)]
pub struct Uberblock {
    pub pool: Guid,
    pub member: Guid,
    pub number: Group,
    pub length: u64,
    pub sum: [u8; 32],
}

/// Writes an uberblock's sector.
pub fn write_uberblock(u: &Uberblock, out: &mut [u8])
    requires { length out.old ≡ 4096 }
    ensures { out.new ≡ uberblock_bytes u.now }
{
    write_head(u, out);
    let sum = Sha256::digest(&out[..SUM_AT]);
    put(out, SUM_AT, &sum);
}

fn write_head(u: &Uberblock, out: &mut [u8])
    requires { length out.old ≡ 4096 }
    ensures { take 4064 out.new ≡ uberblock_head u.now }
{
    let at = put_number(out, 0, MAGIC);
    let at = put_number(out, at, VERSION);
    let at = put_number(out, at, u.pool.0);
    let at = put_number(out, at, u.member.0);
    let at = put_number(out, at, u.number.0);
    let at = put_number(out, at, u.length);
    let at = put(out, at, &u.sum);
    put_zeros(out, at, SUM_AT - ZEROS_AT);
}

/// The uberblock that the sector holds, where it is correct.
pub fn read_uberblock(sector: &[u8]) -> Option<Uberblock>
    requires { length sector.now ≡ 4096 }
    ensures correct { IfSome result (λ u. IsUberblock u sector.now) }
    ensures exact { (u : Uberblock) → IsUberblock u sector.now → result ≡ Some u }
{
    let found = fields_of(sector);
    if !is_in_range(found) {
        return None;
    }
    let mut again = [0; SECTOR_BYTES];
    write_uberblock(&found, &mut again);
    if !are_equal(sector, &again) {
        return None;
    }
    Some(found)
}

fn fields_of(sector: &[u8]) -> Uberblock
    requires { length sector.now ≡ 4096 }
    ensures { result ≡ fields_of sector.now }
{
    let mut sum = [0; 32];
    sum.copy_from_slice(&sector[48..80]);
    Uberblock {
        pool: Guid(number_at(sector, 16)),
        member: Guid(number_at(sector, 24)),
        number: Group(number_at(sector, 32)),
        length: number_at(sector, 40),
        sum,
    }
}

fn is_in_range(u: Uberblock) -> bool
    ensures yes { result ≡ true → IsInRange u }
    ensures no { IsInRange u → result ≡ true }
{
    if u.number.0 == 0 {
        return has_no_config(u);
    }
    if u.number.0 > LAST_NUMBER {
        return false;
    }
    u.length <= MOST_CONFIG_BYTES
}

#[tactic(auto, unfolding(mp_base::specs::Block::zeros))]
fn has_no_config(u: Uberblock) -> bool
    ensures yes { result ≡ true → (u.length ≡ 0) × (u.sum ≡ zeros 32) }
    ensures no { u.length ≡ 0 → u.sum ≡ zeros 32 → result ≡ true }
{
    if u.length != 0 {
        return false;
    }
    u.sum == [0; 32]
}
