//! Writing a configuration. Its fields follow each other without padding. All numbers have the high byte
//! first, and a text is one byte, its length, and its bytes.
//!
//! | bytes | field |
//! |---|---|
//! | 4 | version, 1 |
//! | 8 | pool |
//! | 2 to 65 | name, a text |
//! | 8 | blocks, 1 to 262,144 |
//! | 8 | number, 1 to 2^62 |
//! | 8 | next member number, at most 2^62 |
//! | 52 | root pointer: birth (8), top (4, from 0), sector (8) and sum (32); a hole is zeros |
//! | 4 | tops, 1 to 8, and then each top (`trees.rt`) |
//! | 4 | spares, at most 16, and then each a text |
//!
//! Bytes are a configuration exactly where they are those of valid fields, and nothing follows
//! (`specs/Validity.antt` has all that is asked of them).
ghost use Rattle.std.specs.Prelude.{◌≡◌, ◌+◌, ◌*◌, ◌≤◌, length, take, Some, IfOk};
ghost use Rattle.std.specs.List.{flat_map};
ghost use Rattle.pool_config.specs.Pieces.{Puts};
ghost use Rattle.pool_config.specs.Reading.{config_in};
ghost use Rattle.pool_config.specs.Seen.{parts_seen, config_seen};
ghost use Rattle.pool_config.specs.Spelling.{pointer_bytes, text_bytes, spares_bytes, head_bytes, config_bytes, laid};
ghost use Rattle.pool_config.specs.Validity.{IsValid};

use crate::config::Config;
use crate::pieces::{put, put_name, put_u32, put_u64, put_zeros};
use crate::trees::put_tops;
use mp_base::{BLOCK_BYTES, Group, Guid, MemFault, Name, Pointer};
use std::alloc::Global;
use vdev_tree::Top;

const VERSION: u32 = 1;

/// The bytes of a configuration part, 28 sectors.
pub const PART_BYTES: usize = 114_688;

/// The bytes of a configuration, each leaf in the form that a record keeps.
pub fn encode(alloc: Global, c: &Config) -> Result<Vec<u8>, MemFault>
    requires { IsValid (config_seen c.now) }
    ensures { IfOk result (λ bytes. bytes.items ≡ config_bytes (config_seen c.now)) }
{
    let mut bytes = vec![in alloc; 0; PART_BYTES]?;
    let length = encode_into(
        c.pool,
        &c.name,
        c.blocks,
        c.number,
        c.next_guid,
        &c.root,
        &c.tops,
        &c.spares,
        &mut bytes,
    );
    bytes.truncate(length);
    Ok(bytes)
}

/// Writes a valid configuration to the front of a configuration part, each leaf in the form that a record
/// keeps, and zeros to the end of its last sector; what is behind that stays. Answers the configuration's
/// length in bytes: so many bytes of the part are read back as this configuration. Takes no memory.
pub fn encode_into(
    pool: Guid,
    name: &Name,
    blocks: u64,
    number: Group,
    next_guid: u64,
    root: &Pointer,
    tops: &[Top],
    spares: &[Name],
    out: &mut [u8],
) -> usize
    requires valid { IsValid (parts_seen pool name.now blocks number next_guid root.now tops.now spares.now) }
    requires part { length out.old ≡ 114688 }
    ensures bytes { out.new ≡ laid (config_bytes (parts_seen pool name.now blocks number next_guid root.now tops.now spares.now)) out.old }
    ensures stop { result ≡ length (config_bytes (parts_seen pool name.now blocks number next_guid root.now tops.now spares.now)) }
    ensures back { config_in (take result out.new) ≡ Some (parts_seen pool name.now blocks number next_guid root.now tops.now spares.now) }
{
    let head = Head {
        pool,
        name,
        blocks,
        number,
        next_guid,
        root,
    };
    let at = put_head(&head, out);
    let at = put_tops(tops, out, at);
    let stop = put_spares(spares, out, at);
    put_zeros(out, stop, stop.next_multiple_of(BLOCK_BYTES) - stop);
    stop
}

// What stands before the tops.
#[derive(Drop)]
struct Head<'a> {
    pool: Guid,
    name: &'a Name,
    blocks: u64,
    number: Group,
    next_guid: u64,
    root: &'a Pointer,
}

fn put_head(head: &Head, out: &mut [u8]) -> usize
    requires room { 153 ≤ length out.old }
    ensures piece { let h = head.now in Puts out.old 0 (head_bytes h.pool.0 h.name.now h.blocks h.number.0 h.next_guid h.root.now) out.new result }
    ensures stop { result ≤ 153 }
{
    let at = put_u32(out, 0, VERSION);
    let at = put_u64(out, at, head.pool.0);
    let at = put_name(out, at, head.name);
    let at = put_u64(out, at, head.blocks);
    let at = put_u64(out, at, head.number.0);
    let at = put_u64(out, at, head.next_guid);
    put_pointer(head.root, out, at)
}

fn put_pointer(p: &Pointer, out: &mut [u8], at: usize) -> usize
    requires { at + 52 ≤ length out.old }
    ensures piece { Puts out.old at (pointer_bytes p.now) out.new result }
    ensures stop { result ≡ at + 52 }
{
    let at = put_u64(out, at, p.birth.0);
    let at = put_u32(out, at, p.place.top);
    let at = put_u64(out, at, p.place.sector);
    put(out, at, &p.sum)
}

fn put_spares(spares: &[Name], out: &mut [u8], at: usize) -> usize
    requires few { length spares.now ≤ 16 }
    requires room { at + (4 + 65 * length spares.now) ≤ length out.old }
    ensures piece { Puts out.old at (spares_bytes spares.now) out.new result }
    ensures stop { result ≤ at + (4 + 65 * length spares.now) }
{
    let at = put_u32(out, at, spares.len() as u32);
    put_names(spares, out, at)
}

fn put_names(names: &[Name], out: &mut [u8], at: usize) -> usize
    requires { at + 65 * length names.now ≤ length out.old }
    ensures piece { Puts out.old at (flat_map text_bytes names.now) out.new result }
    ensures stop { result ≤ at + 65 * length names.now }
{
    let mut stop = at;
    for name in names {
        stop = put_name(out, stop, name);
    }
    stop
}
