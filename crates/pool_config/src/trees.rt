//! Writing the tops of a configuration, each with its tree.
//!
//! | bytes | field of a top |
//! |---|---|
//! | 8 | data sectors of each of its members, 64 to 1,048,320 |
//! | | its tree: the vdevs in tree order, an inner one before its children |
//!
//! | bytes | field of a vdev |
//! |---|---|
//! | 1 | kind: 0 leaf, 1 mirror, 2 replacing, 3 spare |
//! | 8 | its member number |
//! | 1 | of an inner vdev: how many children it has; they follow |
//! | 2 to 65 | of a leaf: the name of its device, a text |
//! | 1 | of a leaf: its flags (`flags.rt`) |
//! | 4 | of a leaf: the number of the ranges of its log |
//! | 16 for each | of a leaf: a range, low (8) and high (8) |
ghost use Rattle.std.specs.Prelude.{◌≡◌, ℕ, ◌+◌, ◌*◌, ◌^◌, ◌≤◌, true, map, length};
ghost use Rattle.std.specs.List.{flat_map, list_all};
ghost use Rattle.group_set.specs.Groups.{holds};
ghost use Rattle.pool_config.specs.Pieces.{Puts};
ghost use Rattle.pool_config.specs.Seen.{leaf_seen, vdevs_of, top_seen, mirror_vdevs, ranges_of, room, fits};
ghost use Rattle.pool_config.specs.Spelling.{range_bytes, log_bytes, leaf_bytes, kind_byte, inner_bytes, vdev_bytes};
ghost use Rattle.pool_config.specs.Spelling.{top_bytes, tops_bytes};

use crate::flags::flags_of;
use crate::pieces::{put_name, put_u8, put_u32, put_u64};
use crate::validity::LAST_NUMBER;
use group_set::GroupSet;
use mp_base::{Group, Guid};
use vdev_tree::{Kind, LeafVdev, Top, Vdev};

/// The kinds of vdevs.
pub(crate) const LEAF: u8 = 0;

pub(crate) const MIRROR: u8 = 1;

pub(crate) const REPLACING: u8 = 2;

const SPARE: u8 = 3;

pub(crate) fn put_tops(tops: &[Top], out: &mut [u8], at: usize) -> usize
    requires few { length tops.now ≤ 8 }
    requires fit { list_all fits (flat_map mirror_vdevs tops.now) ≡ true }
    requires room { at + (4 + (8 * length tops.now + room (flat_map mirror_vdevs tops.now))) ≤ length out.old }
    ensures piece { Puts out.old at (tops_bytes (map top_seen tops.now)) out.new result }
    ensures stop { result ≤ at + (4 + (8 * length tops.now + room (flat_map mirror_vdevs tops.now))) }
{
    let mut stop = put_u32(out, at, tops.len() as u32);
    for top in tops {
        stop = put_top(top, out, stop);
    }
    stop
}

fn put_top(top: &Top, out: &mut [u8], at: usize) -> usize
    requires fit { list_all fits (vdevs_of top.now.mirror) ≡ true }
    requires room { at + (8 + room (vdevs_of top.now.mirror)) ≤ length out.old }
    ensures piece { Puts out.old at (top_bytes (top_seen top.now)) out.new result }
    ensures stop { result ≤ at + (8 + room (vdevs_of top.now.mirror)) }
{
    let at = put_u64(out, at, top.sectors);
    put_vdev(&top.mirror, out, at)
}

fn put_vdev(vdev: &Vdev, out: &mut [u8], at: usize) -> usize
    requires fit { list_all fits (vdevs_of vdev.now) ≡ true }
    requires room { at + room (vdevs_of vdev.now) ≤ length out.old }
    ensures piece { Puts out.old at (flat_map vdev_bytes (vdevs_of vdev.now)) out.new result }
    ensures stop { result ≤ at + room (vdevs_of vdev.now) }
{
    match vdev {
        Vdev::Leaf(leaf) => put_leaf(leaf, out, at),
        Vdev::Inner(inner) => {
            let mut stop = put_inner(inner.guid, inner.kind, inner.children.len(), out, at);
            for child in &inner.children {
                stop = put_vdev(child, out, stop);
            }
            stop
        }
    }
}

fn put_inner(guid: Guid, kind: Kind, count: usize, out: &mut [u8], at: usize) -> usize
    requires few { count ≤ 255 }
    requires room { at + 10 ≤ length out.old }
    ensures piece { Puts out.old at (inner_bytes guid.0 kind count) out.new result }
    ensures stop { result ≡ at + 10 }
{
    let at = put_u8(out, at, kind_byte(kind));
    let at = put_u64(out, at, guid.0);
    put_u8(out, at, count as u8)
}

fn kind_byte(kind: Kind) -> u8
    ensures { result ≡ kind_byte kind }
{
    match kind {
        Kind::Mirror => MIRROR,
        Kind::Replacing => REPLACING,
        Kind::Spare => SPARE,
    }
}

fn put_leaf(leaf: &LeafVdev, out: &mut [u8], at: usize) -> usize
    requires few { length (ranges_of leaf.now.log) ≤ 4096 }
    requires room { at + (79 + 16 * length (ranges_of leaf.now.log)) ≤ length out.old }
    ensures piece { Puts out.old at (leaf_bytes (leaf_seen leaf.now)) out.new result }
    ensures stop { result ≤ at + (79 + 16 * length (ranges_of leaf.now.log)) }
{
    let at = put_u8(out, at, LEAF);
    let at = put_u64(out, at, leaf.guid.0);
    let at = put_name(out, at, &leaf.name);
    let at = put_u8(out, at, flags_of(leaf));
    put_log(&leaf.log, out, at)
}

fn put_log(log: &GroupSet, out: &mut [u8], at: usize) -> usize
    requires few { length (ranges_of log.now) ≤ 4096 }
    requires room { at + (4 + 16 * length (ranges_of log.now)) ≤ length out.old }
    ensures piece { Puts out.old at (log_bytes (ranges_of log.now)) out.new result }
    ensures stop { result ≡ at + (4 + 16 * length (ranges_of log.now)) }
{
    let at = put_u32(out, at, range_count(log) as u32);
    put_ranges(log, out, at)
}

fn range_count(log: &GroupSet) -> usize
    ensures { result ≡ length (ranges_of log.now) }
{
    lies_within(log);
    log.ranges()
}

// The groups of a set lie from 1 to 2^62, as a fact for the callers' proofs: what is looked up says so.
fn lies_within(log: &GroupSet)
    ensures { (g : ℕ) → holds log.now g ≡ true → (1 ≤ g) × (g ≤ 2 ^ 62) }
{
    let _least = log.least();
    let _none = log.next_group(Group(LAST_NUMBER + 1));
}

fn put_ranges(log: &GroupSet, out: &mut [u8], at: usize) -> usize
    requires { at + 16 * length (ranges_of log.now) ≤ length out.old }
    ensures piece { Puts out.old at (flat_map range_bytes (ranges_of log.now)) out.new result }
    ensures stop { result ≡ at + 16 * length (ranges_of log.now) }
{
    lies_within(log);
    let mut stop = at;
    let mut from = Group(1);
    while let Some((low, high)) = log.next_run(from) {
        stop = put_range(low, high, out, stop);
        from = Group(high.0 + 2);
    }
    stop
}

fn put_range(low: Group, high: Group, out: &mut [u8], at: usize) -> usize
    requires { at + 16 ≤ length out.old }
    ensures piece { Puts out.old at (range_bytes (record { low = low; high = high })) out.new result }
    ensures stop { result ≡ at + 16 }
{
    let at = put_u64(out, at, low.0);
    put_u64(out, at, high.0)
}
