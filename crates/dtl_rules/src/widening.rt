//! How the logs of a pool stay small: the largest ones become single runs.
ghost use Rattle.std.specs.Prelude.{◌≡◌, ◌==◌, ◌+◌, ◌-◌, ◌^◌, ◌<◌, ◌≤◌, max, min, length, All, true};
ghost use Rattle.std.specs.Bool.{OnTrue, OnFalse};
ghost use Rattle.std.specs.List.{flat_map};
ghost use Rattle.vdev_tree.specs.Tree.{leaves, marks, form_of};
ghost use Rattle.vdev_tree.specs.Changes.{form_alone};
ghost use Rattle.dtl_rules.specs.Widening.{leaves_of, ranges_of, total_ranges, most_ranges, none_has, IsCounted, WidensFirst, WidensLeaf, Widenings, marks_of, sectors_of};

use vdev_tree::{InnerVdev, LeafVdev, Top, Vdev};

/// How many ranges the logs of a pool may have together.
pub const RANGES: usize = 4096;

/// How many ranges some logs have together, as far as a number tells, and how many the largest has.
#[derive(Clone, Copy)]
struct Tally {
    total: usize,
    most: usize,
}

/// While the logs have more than 4,096 ranges together, the one with the most ranges, the first in tree
/// order on a tie, becomes one range from its least to its greatest group.
pub fn fit(tops: &mut [Top])
    ensures widened { Widenings (leaves_of tops.old) (leaves_of tops.new) }

    // A pool has at most 8 tops, so its logs always fit in the end.
    ensures small { length tops.old ≤ 128 → total_ranges (leaves_of tops.new) ≤ 4096 }
    ensures counted { All IsCounted (leaves_of tops.old) }
    ensures built { marks_of tops.new ≡ marks_of tops.old }
    ensures sectors { sectors_of tops.new ≡ sectors_of tops.old }
{
    loop {
        let tally = tally_of_all(tops);
        if tally.total <= RANGES {
            return;
        }
        if tally.most <= 1 {
            return;
        }
        widen_largest(tops, tally.most);
    }
}

/// The same for the logs of one top.
pub fn fit_one(top: &mut Top)
    ensures widened { Widenings (leaves top.old.mirror) (leaves top.new.mirror) }
    ensures small { total_ranges (leaves top.new.mirror) ≤ 4096 }
    ensures counted { All IsCounted (leaves top.old.mirror) }
    ensures built { marks top.new.mirror ≡ marks top.old.mirror }
    ensures sectors { top.new.sectors ≡ top.old.sectors }
{
    fit(std::slice::from_mut(top));
}

/// Widens the first of the logs that have the most ranges.
fn widen_largest(tops: &mut [Top], most: usize)
    requires most { most ≡ most_ranges (leaves_of tops.old) }
    requires several { 1 < most }
    ensures widens { WidensFirst most (leaves_of tops.old) (leaves_of tops.new) }
    ensures built { marks_of tops.new ≡ marks_of tops.old }
    ensures sectors { sectors_of tops.new ≡ sectors_of tops.old }
{
    let _ = widen_first_of(tops, most);
}

fn tally_of_all(tops: &[Top]) -> Tally
    ensures total { result.total ≡ min (2 ^ 64 - 1) (total_ranges (leaves_of tops.now)) }
    ensures most { result.most ≡ most_ranges (leaves_of tops.now) }
    ensures counted { All IsCounted (leaves_of tops.now) }
{
    let mut tally = Tally { total: 0, most: 0 };
    for top in tops {
        tally = tally_with(&top.mirror, tally);
    }
    tally
}

/// The tally of some logs and of those of this vdev.
fn tally_with(vdev: &Vdev, before: Tally) -> Tally
    ensures total { result.total ≡ min (2 ^ 64 - 1) (before.total + total_ranges (leaves vdev.now)) }
    ensures most { result.most ≡ max before.most (most_ranges (leaves vdev.now)) }
    ensures counted { All IsCounted (leaves vdev.now) }
{
    match vdev {
        Vdev::Leaf(leaf) => tally_more(before, leaf.log.ranges()),
        Vdev::Inner(inner) => {
            let mut tally = before;
            for child in &inner.children {
                tally = tally_with(child, tally);
            }
            tally
        }
    }
}

fn tally_more(before: Tally, ranges: usize) -> Tally
    ensures total { result.total ≡ min (2 ^ 64 - 1) (before.total + ranges) }
    ensures most { result.most ≡ max before.most ranges }
{
    Tally {
        total: before.total.saturating_add(ranges),
        most: before.most.max(ranges),
    }
}

/// Widens the first log, in tree order, that has so many ranges. Answers whether there is one.
fn widen_first_of(tops: &mut [Top], ranges: usize) -> bool
    ensures found { OnTrue result (WidensFirst ranges (leaves_of tops.old) (leaves_of tops.new)) }
    ensures none { OnFalse result (none_has ranges (leaves_of tops.old) ≡ true) }
    ensures same { OnFalse result (leaves_of tops.new ≡ leaves_of tops.old) }
    ensures built { marks_of tops.new ≡ marks_of tops.old }
    ensures sectors { sectors_of tops.new ≡ sectors_of tops.old }
{
    for i in 0..tops.len() {
        let top = &mut tops[i];
        if widen_top(top, ranges) {
            return true;
        }
    }
    false
}

fn widen_top(top: &mut Top, ranges: usize) -> bool
    ensures found { OnTrue result (WidensFirst ranges (leaves top.old.mirror) (leaves top.new.mirror)) }
    ensures none { OnFalse result (none_has ranges (leaves top.old.mirror) ≡ true) }
    ensures same { OnFalse result (leaves top.new.mirror ≡ leaves top.old.mirror) }
    ensures built { marks top.new.mirror ≡ marks top.old.mirror }
    ensures sectors { top.new.sectors ≡ top.old.sectors }
{
    widen_first(&mut top.mirror, ranges)
}

#[cycle(widen)]
fn widen_first(vdev: &mut Vdev, ranges: usize) -> bool
    ensures found { OnTrue result (WidensFirst ranges (leaves vdev.old) (leaves vdev.new)) }
    ensures none { OnFalse result (none_has ranges (leaves vdev.old) ≡ true) }
    ensures same { OnFalse result (leaves vdev.new ≡ leaves vdev.old) }
    ensures built { marks vdev.new ≡ marks vdev.old }
    ensures form { form_of vdev.new ≡ form_of vdev.old }
{
    match vdev {
        Vdev::Leaf(leaf) => widen_leaf(leaf, ranges),
        Vdev::Inner(inner) => widen_child(inner, ranges),
    }
}

#[cycle(widen)]
fn widen_child(inner: &mut InnerVdev, ranges: usize) -> bool
    ensures found { OnTrue result (WidensFirst ranges (flat_map leaves inner.old.children.items) (flat_map leaves inner.new.children.items)) }
    ensures none { OnFalse result (none_has ranges (flat_map leaves inner.old.children.items) ≡ true) }
    ensures same { OnFalse result (flat_map leaves inner.new.children.items ≡ flat_map leaves inner.old.children.items) }
    ensures built { flat_map marks inner.new.children.items ≡ flat_map marks inner.old.children.items }
    ensures forms { flat_map form_alone inner.new.children.items ≡ flat_map form_alone inner.old.children.items }
    ensures guid { inner.new.guid ≡ inner.old.guid }
    ensures kind { inner.new.kind ≡ inner.old.kind }
{
    for i in 0..inner.children.len() {
        if widen_first(&mut inner.children[i], ranges) {
            return true;
        }
    }
    false
}

fn widen_leaf(leaf: &mut LeafVdev, ranges: usize) -> bool
    ensures large { result ≡ (ranges_of leaf.old == ranges) }
    ensures widens { OnTrue result (WidensLeaf leaf.old leaf.new) }
    ensures same { OnFalse result (leaf.new ≡ leaf.old) }
{
    if leaf.log.ranges() != ranges {
        return false;
    }
    leaf.log.widen();
    true
}
