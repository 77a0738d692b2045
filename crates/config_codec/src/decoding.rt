//! Reading a configuration (the layout is in `encoding.rt`). The fields are taken out, valid or not, and
//! written again: just the bytes that come out so are a configuration. So version, kinds, counts, flags
//! and holes need no test of their own, and each configuration has one spelling.
ghost use Rattle.std.specs.Prelude.{◌≡◌, ◌*◌, ◌<◌, ◌&&◌, false, length, drop, Option, option_map, IfOk, IfSome, OnOk, IsErrOf, IsTrue};
ghost use Rattle.std.specs.Str.{bytes_eq};
ghost use Rattle.mp_base.specs.Name.{is_name};
ghost use Rattle.config_codec.specs.declared.unread.Unread.TheVariants.{NoConfig};
ghost use Rattle.config_codec.specs.Fields.{config_fields};
ghost use Rattle.config_codec.specs.Reading.{byte_in, number_in, text_in, from_pool, from_name, from_blocks, from_number, from_next_member, from_pointers, from_sectors, from_mirror, from_first, from_second, from_device, from_flags, from_log, pointer_in, pointers_in, range_in, ranges_in, log_in, behind_log, leaf_in, behind_leaf, fields_of, config_in};
ghost use Rattle.config_codec.specs.Spelling.{config_bytes};
ghost use Rattle.config_codec.specs.Validity.{IsValid, is_valid, are_names, may_stand};

use crate::config::{Config, LeafConfig, Pointer};
use crate::cursor::Cursor;
use crate::encoding::{PART_BYTES, encode_into};
use crate::flags::{is_marked, kept_in};
use crate::unread::Unread;
use crate::validity::{MOST_BLOCKS, MOST_RANGES, is_valid};
use mp_base::{Group, GroupRange, Guid, MemFault, Name, Ranges};
use std::alloc::Global;

/// The bytes of the version, and of a count.
const COUNT_BYTES: usize = 4;

const TOP_BYTES: usize = 4;

const KIND_BYTES: usize = 1;

const CHILDREN_BYTES: usize = 1;

// What stands before the pointers.
#[derive(Drop)]
struct Head<'a> {
    pool: Guid,
    name: &'a [u8],
    blocks: u64,
    number: Group,
    next_member: u64,
}

// What stands behind them.
#[derive(Drop)]
struct Top {
    sectors: u64,
    mirror: Guid,
    first: LeafConfig,
    second: LeafConfig,
}

// What stands before a leaf's log.
#[derive(Drop)]
struct LeafHead<'a> {
    member: Guid,
    name: &'a [u8],
    flags: u8,
}

/// The configuration that the bytes are. `None` comes exactly where they are none.
pub fn decode(alloc: Global, bytes: &[u8]) -> Result<Option<Config>, MemFault>
    ensures found { IfOk result (λ found. option_map config_fields found ≡ config_in bytes.now) }
    ensures valid { IfOk result (λ found. IfSome found (λ config. IsValid (config_fields config))) }
{
    match read(alloc, bytes) {
        Ok(config) => kept(alloc, config, bytes),
        Err(Unread::NoConfig) => Ok(None),
        Err(Unread::Memory) => Err(MemFault),
    }
}

fn kept(alloc: Global, config: Config, bytes: &[u8]) -> Result<Option<Config>, MemFault>
    requires names { IsTrue (are_names (config_fields config)) }
    requires fields { config_fields config ≡ fields_of bytes.now }
    ensures found { IfOk result (λ found. option_map config_fields found ≡ config_in bytes.now) }
    ensures valid { IfOk result (λ found. IfSome found (λ config. IsValid (config_fields config))) }
{
    if is_spelled(alloc, &config, bytes)? {
        Ok(Some(config))
    } else {
        Ok(None)
    }
}

// Whether the configuration is valid and has these bytes.
fn is_spelled(alloc: Global, config: &Config, bytes: &[u8]) -> Result<bool, MemFault>
    requires { IsTrue (are_names (config_fields config.now)) }
    ensures { IfOk result (λ is. is ≡ (is_valid (config_fields config.now) && bytes_eq (config_bytes (config_fields config.now)) bytes.now)) }
{
    let parts = config.parts();
    if !is_valid(&parts) {
        return Ok(false);
    }
    let mut again = zeroed(alloc, PART_BYTES)?;
    let stop = encode_into(&parts, &mut again);
    Ok(&again[..stop] == bytes)
}

fn zeroed(alloc: Global, count: usize) -> Result<Vec<u8>, MemFault>
    ensures { IfOk result (λ bytes. length bytes.items ≡ count) }
{
    Ok(vec![in alloc; 0; count]?)
}

// The fields as they stand in the bytes.
fn read(alloc: Global, bytes: &[u8]) -> Result<Config, Unread>
    ensures names { IfOk result (λ config. IsTrue (are_names (config_fields config))) }
    ensures fields { IfOk result (λ config. config_fields config ≡ fields_of bytes.now) }
    ensures none { IsErrOf result NoConfig → is_valid (fields_of bytes.now) ≡ false }
{
    let mut cursor = Cursor::new(bytes);
    let head = read_head(&mut cursor);
    if head.blocks > MOST_BLOCKS {
        return Err(Unread::NoConfig);
    }
    let pointers = read_pointers(alloc, &mut cursor, head.blocks as usize)?;
    let top = read_top(alloc, &mut cursor)?;
    let name = Name::new(alloc, head.name)?;
    Ok(Config {
        pool: head.pool,
        name,
        blocks: head.blocks,
        number: head.number,
        next_member: head.next_member,
        pointers,
        sectors: top.sectors,
        mirror: top.mirror,
        first: top.first,
        second: top.second,
    })
}

fn read_head<'a>(cursor: &mut Cursor<'a>) -> Head<'a>
    ensures pool { result.pool.0 ≡ number_in (from_pool cursor.old) }
    ensures name { result.name.now ≡ text_in (from_name cursor.old) }
    ensures blocks { result.blocks ≡ number_in (from_blocks cursor.old) }
    ensures number { result.number.0 ≡ number_in (from_number cursor.old) }
    ensures next_member { result.next_member ≡ number_in (from_next_member cursor.old) }
    ensures rest { cursor.new ≡ from_pointers cursor.old }
{
    cursor.skip(COUNT_BYTES);
    Head {
        pool: Guid(cursor.number()),
        name: cursor.text(),
        blocks: cursor.number(),
        number: Group(cursor.number()),
        next_member: cursor.number(),
    }
}

fn read_top(alloc: Global, cursor: &mut Cursor) -> Result<Top, Unread>
    ensures sectors { IfOk result (λ top. top.sectors ≡ number_in (from_sectors cursor.old)) }
    ensures mirror { IfOk result (λ top. top.mirror.0 ≡ number_in (from_mirror cursor.old)) }
    ensures first { IfOk result (λ top. top.first ≡ leaf_in (from_first cursor.old)) }
    ensures second { IfOk result (λ top. top.second ≡ leaf_in (from_second cursor.old)) }
    ensures names { IfOk result (λ top. IsTrue (is_name top.first.name && is_name top.second.name)) }
    ensures none { IsErrOf result NoConfig
        → (may_stand (leaf_in (from_first cursor.old)) && may_stand (leaf_in (from_second cursor.old))) ≡ false }
{
    cursor.skip(COUNT_BYTES);
    let sectors = cursor.number();
    cursor.skip(KIND_BYTES);
    let mirror = Guid(cursor.number());
    cursor.skip(CHILDREN_BYTES);
    let first = read_leaf(alloc, cursor)?;
    let second = read_leaf(alloc, cursor)?;
    Ok(Top {
        sectors,
        mirror,
        first,
        second,
    })
}

fn read_pointers(
    alloc: Global,
    cursor: &mut Cursor,
    blocks: usize,
) -> Result<Vec<Option<Pointer>>, MemFault>
    ensures pointers { IfOk result (λ pointers. pointers.items ≡ pointers_in blocks cursor.old) }
    ensures rest { OnOk result (cursor.new ≡ drop (52 * blocks) cursor.old) }
{
    let mut pointers = Vec::with_capacity(alloc, blocks)?;
    for _ in 0..blocks {
        pointers.push(read_pointer(cursor))?;
    }
    Ok(pointers)
}

fn read_pointer(cursor: &mut Cursor) -> Option<Pointer>
    ensures pointer { result ≡ pointer_in cursor.old }
    ensures rest { cursor.new ≡ drop 52 cursor.old }
{
    let birth = Group(cursor.number());
    cursor.skip(TOP_BYTES);
    let sector = cursor.number();
    let sum = cursor.bytes();
    (birth.0 != 0).then_some(Pointer { birth, sector, sum })
}

fn read_leaf(alloc: Global, cursor: &mut Cursor) -> Result<LeafConfig, Unread>
    ensures name { IfOk result (λ leaf. IsTrue (is_name leaf.name)) }
    ensures leaf { IfOk result (λ leaf. leaf ≡ leaf_in cursor.old) }
    ensures rest { OnOk result (cursor.new ≡ behind_leaf cursor.old) }
    ensures none { IsErrOf result NoConfig → may_stand (leaf_in cursor.old) ≡ false }
{
    let head = read_leaf_head(cursor);
    let log = read_log(alloc, cursor)?;
    Ok(LeafConfig {
        member: head.member,
        name: Name::new(alloc, head.name)?,
        kept: kept_in(head.flags),
        marked: is_marked(head.flags),
        log,
    })
}

fn read_leaf_head<'a>(cursor: &mut Cursor<'a>) -> LeafHead<'a>
    ensures member { result.member.0 ≡ number_in (drop 1 cursor.old) }
    ensures name { result.name.now ≡ text_in (from_device cursor.old) }
    ensures flags { result.flags ≡ byte_in (from_flags cursor.old) }
    ensures rest { cursor.new ≡ from_log cursor.old }
{
    cursor.skip(KIND_BYTES);
    LeafHead {
        member: Guid(cursor.number()),
        name: cursor.text(),
        flags: cursor.byte(),
    }
}

fn read_log(alloc: Global, cursor: &mut Cursor) -> Result<Ranges, Unread>
    ensures log { IfOk result (λ log. log ≡ log_in cursor.old) }
    ensures rest { OnOk result (cursor.new ≡ behind_log cursor.old) }
    ensures none { IsErrOf result NoConfig → 4096 < length (log_in cursor.old) }
{
    let count = cursor.count() as usize;
    if count > MOST_RANGES {
        return Err(Unread::NoConfig);
    }
    Ok(read_ranges(alloc, cursor, count)?)
}

fn read_ranges(alloc: Global, cursor: &mut Cursor, count: usize) -> Result<Ranges, MemFault>
    ensures ranges { IfOk result (λ ranges. ranges ≡ ranges_in count cursor.old) }
    ensures rest { OnOk result (cursor.new ≡ drop (16 * count) cursor.old) }
{
    let mut ranges = Ranges::new(alloc);
    for _ in 0..count {
        ranges.push(read_range(cursor))?;
    }
    Ok(ranges)
}

fn read_range(cursor: &mut Cursor) -> GroupRange
    ensures range { result ≡ range_in cursor.old }
    ensures rest { cursor.new ≡ drop 16 cursor.old }
{
    GroupRange {
        low: Group(cursor.number()),
        high: Group(cursor.number()),
    }
}
