//! Reading the parts of a configuration, valid or not. What reading cannot make a part of ends it: a name
//! that is none, a log that isn't one, vdevs that make up no tree of a top.
ghost use Rattle.std.specs.Prelude.{◌≡◌, ◌^◌, ◌≤◌, ◌==◌, ◌&&◌, ◌||◌, nat_le, false, true, length, drop, IfOk, OnOk};
ghost use Rattle.std.specs.Prelude.{IsErrOf};
ghost use Rattle.std.specs.List.{list_all};
ghost use Rattle.mp_base.specs.Name.{is_name};
ghost use Rattle.mp_base.specs.Ranges.{Rises};
ghost use Rattle.pool_config.specs.declared.unread.Unread.TheVariants.{NoConfig};
ghost use Rattle.pool_config.specs.Reading.{byte_in, number_in, text_in, pointer_in, range_in, many_in, log_in};
ghost use Rattle.pool_config.specs.Reading.{from_device, from_flags, from_log, leaf_in, kind_in, from_count};
ghost use Rattle.pool_config.specs.Reading.{from_children, tree_in, top_in, tops_in, spares_in};
ghost use Rattle.pool_config.specs.Taken.{IsTakenLeaf, IsTakenTree, IsTakenTop, AreTakenTops};
ghost use Rattle.pool_config.specs.Validity.{rises, is_leaf_of, is_vdev_of, is_top_of};

use crate::cursor::Cursor;
use crate::flags::{is_marked, state_in};
use crate::members::Members;
use crate::trees::{LEAF, MIRROR, REPLACING};
use crate::unread::Unread;
use crate::validity::{MOST_RANGES, rises};
use group_set::GroupSet;
use mp_base::{Group, GroupRange, Guid, MemFault, Name, Place, Pointer, Ranges};
use std::alloc::Global;
use vdev_tree::{Counts, InnerVdev, Kind, LeafVdev, Top, Vdev};

const KIND_BYTES: usize = 1;

/// The levels below a mirror: spare vdevs, replacing ones, and leaves.
const LEVELS: usize = 3;

// What stands before a leaf's log.
#[derive(Drop)]
struct LeafHead<'a> {
    guid: Guid,
    name: &'a [u8],
    flags: u8,
}

// What stands before the children of an inner vdev.
#[derive(Drop)]
struct InnerHead {
    kind: Kind,
    guid: Guid,
    count: u8,
}

pub(crate) fn read_pointer(cursor: &mut Cursor) -> Pointer
    ensures pointer { result ≡ pointer_in cursor.old }
    ensures rest { cursor.new ≡ drop 52 cursor.old }
{
    let birth = Group(cursor.number());
    let top = cursor.count();
    let sector = cursor.number();
    Pointer {
        birth,
        place: Place { top, sector },
        sum: cursor.bytes(),
    }
}

pub(crate) fn read_tops(
    alloc: Global,
    cursor: &mut Cursor,
    number: Group,
    members: &mut Members,
) -> Result<Vec<Top>, Unread>
    requires { number.0 ≤ 2 ^ 62 }
    ensures taken { IfOk result (λ tops. AreTakenTops number (tops_in cursor.old) cursor.new members.old members.new tops.items) }
    ensures none { IsErrOf result NoConfig → list_all (is_top_of number) (tops_in cursor.old).value ≡ false }
{
    let count = cursor.count();
    let mut tops = Vec::new(alloc);
    for _ in 0..count {
        tops.push(read_top(alloc, cursor, number, members)?)?;
    }
    Ok(tops)
}

fn read_top(
    alloc: Global,
    cursor: &mut Cursor,
    number: Group,
    members: &mut Members,
) -> Result<Top, Unread>
    requires { number.0 ≤ 2 ^ 62 }
    ensures taken { IfOk result (IsTakenTop number (top_in cursor.old) cursor.new members.old members.new) }
    ensures none { IsErrOf result NoConfig → is_top_of number (top_in cursor.old).value ≡ false }
{
    let sectors = cursor.number();
    let mirror = read_tree(alloc, cursor, LEVELS, number, members)?;
    match Top::new(mirror, sectors) {
        Some(top) => Ok(top),
        None => Err(Unread::NoConfig),
    }
}

// A tree with at most so many levels below its first vdev.
fn read_tree(
    alloc: Global,
    cursor: &mut Cursor,
    levels: usize,
    number: Group,
    members: &mut Members,
) -> Result<Vdev, Unread>
    requires { number.0 ≤ 2 ^ 62 }
    ensures taken { IfOk result (IsTakenTree number (tree_in levels cursor.old) cursor.new members.old members.new) }
    ensures none { IsErrOf result NoConfig → list_all (is_vdev_of number) (tree_in levels cursor.old).value ≡ false }
{
    if is_leaf(levels, cursor) {
        return Ok(Vdev::Leaf(read_leaf(alloc, cursor, number, members)?));
    }
    let head = read_inner_head(cursor);
    members.add_inner(head.guid)?;
    let mut children = Vec::new(alloc);
    for _ in 0..head.count {
        children.push(read_tree(alloc, cursor, levels - 1, number, members)?)?;
    }
    Ok(Vdev::Inner(InnerVdev {
        guid: head.guid,
        kind: head.kind,
        children,
    }))
}

// Whether a leaf stands there. Where no level is left all is taken for one.
fn is_leaf(levels: usize, cursor: &Cursor) -> bool
    ensures { result ≡ (levels == 0 || byte_in cursor.now == 0) }
{
    levels == 0 || cursor.is_at(LEAF)
}

fn read_inner_head(cursor: &mut Cursor) -> InnerHead
    ensures kind { result.kind ≡ kind_in (byte_in cursor.old) }
    ensures guid { result.guid.0 ≡ number_in (drop 1 cursor.old) }
    ensures count { result.count ≡ byte_in (from_count cursor.old) }
    ensures rest { cursor.new ≡ from_children cursor.old }
{
    InnerHead {
        kind: kind_in(cursor.byte()),
        guid: Guid(cursor.number()),
        count: cursor.byte(),
    }
}

fn kind_in(byte: u8) -> Kind
    ensures { result ≡ kind_in byte }
{
    match byte {
        MIRROR => Kind::Mirror,
        REPLACING => Kind::Replacing,
        _ => Kind::Spare,
    }
}

fn read_leaf(
    alloc: Global,
    cursor: &mut Cursor,
    number: Group,
    members: &mut Members,
) -> Result<LeafVdev, Unread>
    requires { number.0 ≤ 2 ^ 62 }
    ensures taken { IfOk result (IsTakenLeaf number (leaf_in cursor.old) cursor.new members.old members.new) }
    ensures none { IsErrOf result NoConfig → is_leaf_of number (leaf_in cursor.old).value ≡ false }
{
    let head = read_leaf_head(cursor);
    let log = read_log(alloc, cursor, number)?;
    let name = Name::new(alloc, head.name)?;
    members.add_leaf(alloc, head.guid, &name, log.as_slice().len())?;
    Ok(LeafVdev {
        guid: head.guid,
        name,
        dev: None,
        state: state_in(head.flags),
        log: GroupSet::from_ranges(alloc, log.as_slice())?,
        settled: GroupSet::new(alloc),
        marked: is_marked(head.flags),
        temporary: false,
        counts: Counts {
            reads: 0,
            writes: 0,
            mismatches: 0,
        },
    })
}

fn read_leaf_head<'a>(cursor: &mut Cursor<'a>) -> LeafHead<'a>
    ensures guid { result.guid.0 ≡ number_in (drop 1 cursor.old) }
    ensures name { result.name.now ≡ text_in (from_device cursor.old) }
    ensures flags { result.flags ≡ byte_in (from_flags cursor.old) }
    ensures rest { cursor.new ≡ from_log cursor.old }
{
    cursor.skip(KIND_BYTES);
    LeafHead {
        guid: Guid(cursor.number()),
        name: cursor.text(),
        flags: cursor.byte(),
    }
}

// A log of rising ranges up to this group.
fn read_log(alloc: Global, cursor: &mut Cursor, number: Group) -> Result<Ranges, Unread>
    requires { number.0 ≤ 2 ^ 62 }
    ensures log { IfOk result (λ log. log ≡ (log_in cursor.old).value) }
    ensures few { IfOk result (λ log. length log ≤ 4096) }
    ensures rises { IfOk result (λ log. rises 1 number.0 log ≡ true) }
    ensures rest { OnOk result (cursor.new ≡ (log_in cursor.old).rest) }
    ensures none { IsErrOf result NoConfig → (nat_le (length (log_in cursor.old).value) 4096 && rises 1 number.0 (log_in cursor.old).value) ≡ false }
{
    let count = cursor.count() as usize;
    if count > MOST_RANGES {
        return Err(Unread::NoConfig);
    }
    let log = read_ranges(alloc, cursor, count)?;
    if rises(number, log.as_slice()) {
        Ok(log)
    } else {
        Err(Unread::NoConfig)
    }
}

fn read_ranges(alloc: Global, cursor: &mut Cursor, count: usize) -> Result<Ranges, MemFault>
    ensures ranges { IfOk result (λ ranges. ranges ≡ (many_in range_in count cursor.old).value) }
    ensures rest { OnOk result (cursor.new ≡ (many_in range_in count cursor.old).rest) }
{
    let mut ranges = Ranges::new(alloc);
    for _ in 0..count {
        ranges.push(read_range(cursor))?;
    }
    Ok(ranges)
}

fn read_range(cursor: &mut Cursor) -> GroupRange
    ensures range { result ≡ (range_in cursor.old).value }
    ensures rest { cursor.new ≡ (range_in cursor.old).rest }
{
    GroupRange {
        low: Group(cursor.number()),
        high: Group(cursor.number()),
    }
}

pub(crate) fn read_spares(alloc: Global, cursor: &mut Cursor) -> Result<Vec<Name>, Unread>
    ensures spares { IfOk result (λ spares. spares.items ≡ (spares_in cursor.old).value) }
    ensures names { IfOk result (λ spares. list_all is_name spares.items ≡ true) }
    ensures none { IsErrOf result NoConfig → list_all is_name (spares_in cursor.old).value ≡ false }
{
    let count = cursor.count();
    let mut spares = Vec::new(alloc);
    for _ in 0..count {
        spares.push(Name::new(alloc, cursor.text())?)?;
    }
    Ok(spares)
}
