//! Reading a configuration (the layout is in `encoding.rt` and `trees.rt`). The fields are taken out and
//! written again: just the bytes that come out so are a configuration. So version, kinds, counts and flags
//! need no test of their own, and each configuration has one spelling.
ghost use Rattle.std.specs.Prelude.{◌≡◌, ◌&&◌, false, All, IfOk, IfSome, IsErrOf};
ghost use Rattle.std.specs.Option.{option_map};
ghost use Rattle.std.specs.List.{flat_map};
ghost use Rattle.std.specs.Str.{bytes_eq};
ghost use Rattle.pool_config.specs.declared.unread.Unread.TheVariants.{NoConfig};
ghost use Rattle.pool_config.specs.Seen.{config_seen, top_leaves, IsRecorded};
ghost use Rattle.pool_config.specs.Taken.{IsUnchecked};
ghost use Rattle.pool_config.specs.Reading.{number_in, text_in, pointer_in, from_pool, from_name, from_blocks};
ghost use Rattle.pool_config.specs.Reading.{from_number, from_next_guid, from_root, from_tops, seen_in, config_in};
ghost use Rattle.pool_config.specs.Spelling.{config_bytes};
ghost use Rattle.pool_config.specs.Validity.{IsValid, is_valid, are_parts};

use crate::config::Config;
use crate::cursor::Cursor;
use crate::encoding::encode;
use crate::members::Members;
use crate::reading::{read_pointer, read_spares, read_tops};
use crate::unread::Unread;
use crate::validity::{LAST_NUMBER, is_in, is_whole};
use mp_base::{Group, Guid, MemFault, Name, Pointer};
use std::alloc::Global;

/// The bytes of the version.
const VERSION_BYTES: usize = 4;

// What stands before the tops.
#[derive(Drop)]
struct Head<'a> {
    pool: Guid,
    name: &'a [u8],
    blocks: u64,
    number: Group,
    next_guid: u64,
    root: Pointer,
}

// A configuration whose parts are valid one by one, and what is gathered of its vdevs.
#[derive(Drop)]
struct Unchecked {
    config: Config,
    members: Members,
}

/// The configuration that the bytes are, each leaf in the form that a record keeps. `None` comes exactly
/// where they are none.
pub fn decode(alloc: Global, bytes: &[u8]) -> Result<Option<Config>, MemFault>
    ensures found { IfOk result (λ found. option_map config_seen found ≡ config_in bytes.now) }
    ensures valid { IfOk result (λ found. IfSome found (λ config. IsValid (config_seen config))) }
    ensures recorded { IfOk result (λ found. IfSome found (λ config. All IsRecorded (flat_map top_leaves config.tops.items))) }
{
    match read(alloc, bytes) {
        Ok(unchecked) => checked(alloc, unchecked, bytes),
        Err(Unread::NoConfig) => Ok(None),
        Err(Unread::Memory) => Err(MemFault),
    }
}

fn checked(alloc: Global, unchecked: Unchecked, bytes: &[u8]) -> Result<Option<Config>, MemFault>
    requires { IsUnchecked bytes.now unchecked }
    ensures found { IfOk result (λ found. option_map config_seen found ≡ config_in bytes.now) }
    ensures valid { IfOk result (λ found. IfSome found (λ config. IsValid (config_seen config))) }
    ensures recorded { IfOk result (λ found. IfSome found (λ config. All IsRecorded (flat_map top_leaves config.tops.items))) }
{
    if is_spelled(alloc, &unchecked, bytes)? {
        Ok(Some(unchecked.config))
    } else {
        Ok(None)
    }
}

// Whether the configuration is valid and has these bytes.
fn is_spelled(alloc: Global, unchecked: &Unchecked, bytes: &[u8]) -> Result<bool, MemFault>
    requires { IsUnchecked bytes.now unchecked.now }
    ensures { IfOk result (λ is. is ≡ (is_valid (seen_in bytes.now) && bytes_eq (config_bytes (seen_in bytes.now)) bytes.now)) }
{
    if !is_whole(&unchecked.config, &unchecked.members) {
        return Ok(false);
    }
    let again = encode(alloc, &unchecked.config)?;
    Ok(again.as_slice() == bytes)
}

// The fields as they stand in the bytes.
fn read(alloc: Global, bytes: &[u8]) -> Result<Unchecked, Unread>
    ensures unchecked { IfOk result (IsUnchecked bytes.now) }
    ensures none { IsErrOf result NoConfig → are_parts (seen_in bytes.now) ≡ false }
{
    let mut cursor = Cursor::new(bytes);
    let mut members = Members::new(alloc);
    let head = read_head(&mut cursor);
    if !is_in(1, LAST_NUMBER, head.number.0) {
        return Err(Unread::NoConfig);
    }
    let tops = read_tops(alloc, &mut cursor, head.number, &mut members)?;
    let spares = read_spares(alloc, &mut cursor)?;
    let config = Config {
        pool: head.pool,
        name: Name::new(alloc, head.name)?,
        blocks: head.blocks,
        number: head.number,
        next_guid: head.next_guid,
        root: head.root,
        tops,
        spares,
    };
    Ok(Unchecked { config, members })
}

fn read_head<'a>(cursor: &mut Cursor<'a>) -> Head<'a>
    ensures pool { result.pool.0 ≡ number_in (from_pool cursor.old) }
    ensures name { result.name.now ≡ text_in (from_name cursor.old) }
    ensures blocks { result.blocks ≡ number_in (from_blocks cursor.old) }
    ensures number { result.number.0 ≡ number_in (from_number cursor.old) }
    ensures next_guid { result.next_guid ≡ number_in (from_next_guid cursor.old) }
    ensures root { result.root ≡ pointer_in (from_root cursor.old) }
    ensures rest { cursor.new ≡ from_tops cursor.old }
{
    cursor.skip(VERSION_BYTES);
    Head {
        pool: Guid(cursor.number()),
        name: cursor.text(),
        blocks: cursor.number(),
        number: Group(cursor.number()),
        next_guid: cursor.number(),
        root: read_pointer(cursor),
    }
}
