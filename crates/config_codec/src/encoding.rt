//! Writing a configuration. Its fields follow each other without padding. All numbers have the high byte
//! first, and a text is one byte, its length, and its bytes.
//!
//! | bytes | field |
//! |---|---|
//! | 4 | version, 1 |
//! | 8 | pool, at least 1 |
//! | 2 to 65 | name, a text |
//! | 8 | blocks, 1 to 32 |
//! | 8 | number, 1 to 2^62 |
//! | 8 | next member number, at most 2^62 |
//! | 52 for each block | its pointer: birth (8), top (4), sector (8) and sum (32); a hole is zeros |
//! | 4 | tops, 1 |
//! | 8 | sectors of the top, 64 to 1,048,320 |
//! | 1 | its kind, 1 (mirror) |
//! | 8 | its member number |
//! | 1 | its children, 2 |
//! | 16 to 79 for each leaf, and its log | kind 0 (1), member number (8), device name (a text), flags (1), number of ranges (4), and the ranges |
//! | 4 | spares, 0 |
//!
//! A leaf's flags are 0 online, 1 offline, 2 faulted or 4 degraded, and 8 more where it is marked to come
//! back. Its log is the ranges of groups of which it lacks a valid copy: 16 bytes for each, low (8) and
//! high (8). The two logs together have at most 4,096.
//!
//! Bytes are a configuration exactly where they are those of valid fields, and nothing follows
//! (`specs/Validity.antt` has all that is asked of them).
ghost use Rattle.std.specs.Prelude.{◌≡◌, ◌+◌, ◌-◌, ◌*◌, ◌≤◌, ◌++◌, length, take, Some};
ghost use Rattle.std.specs.List.{flat_map};
ghost use Rattle.mp_base.specs.Block.{zeros};
ghost use Rattle.config_codec.specs.Fields.{parts_fields, parts_leaf};
ghost use Rattle.config_codec.specs.Pieces.{Puts};
ghost use Rattle.config_codec.specs.Reading.{config_in};
ghost use Rattle.config_codec.specs.Spelling.{pointer_bytes, range_bytes, log_bytes, leaf_bytes, head_bytes, tops_bytes, config_bytes};
ghost use Rattle.config_codec.specs.Validity.{IsValid};

use crate::config::Pointer;
use crate::flags::flags_of;
use crate::parts::{LeafParts, Parts};
use crate::pieces::{put, put_name, put_u8, put_u32, put_u64, put_zeros};
use mp_base::GroupRange;

const VERSION: u32 = 1;

/// The number of tops.
const TOPS: u32 = 1;

/// The kinds of vdevs.
const LEAF: u8 = 0;

const MIRROR: u8 = 1;

/// The number of a mirror's leaves.
const CHILDREN: u8 = 2;

const NO_SPARES: u32 = 0;

/// The place of the one top among the tops.
const FIRST_TOP: u32 = 0;

/// The bytes of a pointer, and of a hole.
pub(crate) const POINTER_BYTES: usize = 52;

/// The bytes of a configuration part, 28 sectors.
pub const PART_BYTES: usize = 114_688;

/// Writes a valid configuration to the front of a configuration part, and zeros behind it. Answers the
/// configuration's length in bytes, at most 1,949 and 16 for each range: so many bytes of the part are read
/// back as this configuration. Takes no memory.
pub fn encode_into(c: &Parts, out: &mut [u8]) -> usize
    requires valid { IsValid (parts_fields c.now) }
    requires part { length out.old ≡ 114688 }
    ensures bytes { out.new ≡ config_bytes (parts_fields c.now) ++ zeros (114688 - length (config_bytes (parts_fields c.now))) }
    ensures stop { result ≡ length (config_bytes (parts_fields c.now)) }
    ensures back { config_in (take result out.new) ≡ Some (parts_fields c.now) }
{
    let at = put_head(c, out);
    let at = put_pointers(c.pointers, out, at);
    let at = put_tops(c, out, at);
    let stop = put_u32(out, at, NO_SPARES);
    let rest = out.len() - stop;
    put_zeros(out, stop, rest);
    stop
}

fn put_head(c: &Parts, out: &mut [u8]) -> usize
    requires room { 101 ≤ length out.old }
    requires few { length c.now.name.now ≤ 64 }
    ensures piece { Puts out.old 0 (head_bytes (parts_fields c.now)) out.new result }
    ensures stop { result ≤ 101 }
{
    let at = put_u32(out, 0, VERSION);
    let at = put_u64(out, at, c.pool.0);
    let at = put_name(out, at, c.name);
    let at = put_u64(out, at, c.blocks);
    let at = put_u64(out, at, c.number.0);
    put_u64(out, at, c.next_member)
}

fn put_pointers(pointers: &[Option<Pointer>], out: &mut [u8], at: usize) -> usize
    requires { at + 52 * length pointers.now ≤ length out.old }
    ensures piece { Puts out.old at (flat_map pointer_bytes pointers.now) out.new result }
    ensures stop { result ≡ at + 52 * length pointers.now }
{
    let mut stop = at;
    for slot in pointers {
        stop = put_pointer(*slot, out, stop);
    }
    stop
}

fn put_pointer(slot: Option<Pointer>, out: &mut [u8], at: usize) -> usize
    requires { at + 52 ≤ length out.old }
    ensures piece { Puts out.old at (pointer_bytes slot) out.new result }
    ensures stop { result ≡ at + 52 }
{
    match slot {
        None => put_zeros(out, at, POINTER_BYTES),
        Some(p) => put_place(p, out, at),
    }
}

fn put_place(p: Pointer, out: &mut [u8], at: usize) -> usize
    requires { at + 52 ≤ length out.old }
    ensures piece { Puts out.old at (pointer_bytes (Some p)) out.new result }
    ensures stop { result ≡ at + 52 }
{
    let at = put_u64(out, at, p.birth.0);
    let at = put_u32(out, at, FIRST_TOP);
    let at = put_u64(out, at, p.sector);
    put(out, at, &p.sum)
}

fn put_tops(c: &Parts, out: &mut [u8], at: usize) -> usize
    requires room { at + (180 + 16 * (length c.now.first.log.now + length c.now.second.log.now)) ≤ length out.old }
    requires first { length c.now.first.name.now ≤ 64 }
    requires second { length c.now.second.name.now ≤ 64 }
    requires few { length c.now.first.log.now + length c.now.second.log.now ≤ 4096 }
    ensures piece { Puts out.old at (tops_bytes (parts_fields c.now)) out.new result }
    ensures stop { result ≤ at + (180 + 16 * (length c.now.first.log.now + length c.now.second.log.now)) }
{
    let at = put_u32(out, at, TOPS);
    let at = put_u64(out, at, c.sectors);
    let at = put_u8(out, at, MIRROR);
    let at = put_u64(out, at, c.mirror.0);
    let at = put_u8(out, at, CHILDREN);
    let at = put_leaf(&c.first, out, at);
    put_leaf(&c.second, out, at)
}

fn put_leaf(leaf: &LeafParts, out: &mut [u8], at: usize) -> usize
    requires room { at + (79 + 16 * length leaf.now.log.now) ≤ length out.old }
    requires short { length leaf.now.name.now ≤ 64 }
    requires few { length leaf.now.log.now ≤ 4096 }
    ensures piece { Puts out.old at (leaf_bytes (parts_leaf leaf.now)) out.new result }
    ensures stop { result ≤ at + (79 + 16 * length leaf.now.log.now) }
{
    let at = put_u8(out, at, LEAF);
    let at = put_u64(out, at, leaf.member.0);
    let at = put_name(out, at, leaf.name);
    let at = put_u8(out, at, flags_of(leaf.kept, leaf.marked));
    put_log(leaf.log, out, at)
}

fn put_log(log: &[GroupRange], out: &mut [u8], at: usize) -> usize
    requires room { at + (4 + 16 * length log.now) ≤ length out.old }
    requires few { length log.now ≤ 4096 }
    ensures piece { Puts out.old at (log_bytes log.now) out.new result }
    ensures stop { result ≡ at + (4 + 16 * length log.now) }
{
    let at = put_u32(out, at, log.len() as u32);
    put_ranges(log, out, at)
}

fn put_ranges(ranges: &[GroupRange], out: &mut [u8], at: usize) -> usize
    requires { at + 16 * length ranges.now ≤ length out.old }
    ensures piece { Puts out.old at (flat_map range_bytes ranges.now) out.new result }
    ensures stop { result ≡ at + 16 * length ranges.now }
{
    let mut stop = at;
    for range in ranges {
        stop = put_range(*range, out, stop);
    }
    stop
}

fn put_range(range: GroupRange, out: &mut [u8], at: usize) -> usize
    requires { at + 16 ≤ length out.old }
    ensures piece { Puts out.old at (range_bytes range) out.new result }
    ensures stop { result ≡ at + 16 }
{
    let at = put_u64(out, at, range.low.0);
    put_u64(out, at, range.high.0)
}
