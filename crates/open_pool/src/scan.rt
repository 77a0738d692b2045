//! The scan that runs: which keys it handles, and for which leaves.
ghost use Rattle.std.specs.Prelude.{◌≡◌, ◌+◌, ◌<◌, ◌≤◌, ◌∷◌, ◌++◌, [], length, map};
ghost use Rattle.vdev_tree.specs.Tree.{leaves};
ghost use Rattle.dtl_rules.specs.Widening.{leaves_of};
ghost use Rattle.open_pool.specs.Scanning.{dropped, dropped_from, scan_leaf, scan_leaves};

use mp_base::Group;
use std::marker::Model;
use txg_engine::MOST_LEAVES;
use vdev_tree::{LeafVdev, Top};

/// A leaf that was readable when the scan started, by its device. It is eligible as long as it stays so.
#[derive(Clone, Copy)]
pub struct ScanLeaf {
    pub dev: u32,
    pub eligible: bool,
}

/// Such leaves in tree order, at most 32. They take no memory, so a scan may start behind a commit.
#[derive(Drop)]
pub struct ScanLeaves {
    list: [ScanLeaf; MOST_LEAVES],
    len: usize,
}

impl Model for ScanLeaves {
    ghost use Rattle.std.specs.Prelude.{◌≡◌, ◌≤◌, List, length, take};
    ghost use Rattle.open_pool.specs.declared.scan.ScanLeaf.{ScanLeaf};

    ghost Value = { List ScanLeaf };

    ghost view = { λ leaves. take leaves.len leaves.list };

    ghost invariant = { λ leaves. (leaves.len ≤ 32) × (length leaves.list ≡ 32) };
}

impl ScanLeaves {
    fn new() -> ScanLeaves
        ensures { result ≡ [] }
    {
        let none = ScanLeaf {
            dev: 0,
            eligible: false,
        };
        ScanLeaves {
            list: [none; MOST_LEAVES],
            len: 0,
        }
    }

    fn push(&mut self, leaf: ScanLeaf)
        requires { length self.old < 32 }
        ensures { self.new ≡ self.old ++ leaf ∷ [] }
    {
        self.list[self.len] = leaf;
        self.len += 1;
    }

    // The leaf on this device is no longer eligible.
    fn drop_on(&mut self, dev: u32)
        ensures { self.new ≡ map (dropped dev) self.old }
    {
        drop_in(&mut self.list, dev);
    }
}

/// The scan that runs, over keys born up to `hi`.
#[derive(Drop)]
pub struct Scan {
    pub hi: Group,
    pub leaves: ScanLeaves,
}

impl Scan {
    /// A scan of the keys born up to this number, for the readable leaves under the tops.
    pub(crate) fn start(hi: Group, tops: &[Top]) -> Scan
        requires { length (leaves_of tops.now) ≤ 32 }
        ensures hi { result.hi ≡ hi }
        ensures leaves { result.leaves ≡ scan_leaves (leaves_of tops.now) }
    {
        let mut leaves = ScanLeaves::new();
        for i in 0..tops.len() {
            push_under(&mut leaves, &tops[i]);
        }
        Scan { hi, leaves }
    }
}

/// The leaf on this device, if it has one, is no longer eligible in the scan that runs, if one does.
pub(crate) fn drop_from(scan: &mut Option<Scan>, dev: Option<u32>)
    ensures { scan.new ≡ dropped_from dev scan.old }
{
    let Some(dev) = dev else {
        return;
    };
    if let Some(scan) = scan {
        scan.leaves.drop_on(dev);
    }
}

// The readable leaves of a top come behind the others.
fn push_under(list: &mut ScanLeaves, top: &Top)
    requires { length list.old + length (leaves top.now.mirror) ≤ 32 }
    ensures { list.new ≡ list.old ++ scan_leaves (leaves top.now.mirror) }
{
    for place in 0..MOST_LEAVES {
        let Some(leaf) = top.leaf_at(place) else {
            return;
        };
        push_one(list, leaf);
    }
}

fn push_one(list: &mut ScanLeaves, leaf: &LeafVdev)
    requires { length list.old < 32 }
    ensures { list.new ≡ list.old ++ scan_leaves (leaf.now ∷ []) }
{
    if let Some(leaf) = scan_leaf(leaf) {
        list.push(leaf);
    }
}

fn scan_leaf(leaf: &LeafVdev) -> Option<ScanLeaf>
    ensures { result ≡ scan_leaf leaf.now }
{
    if !leaf.state.is_up() {
        return None;
    }
    let dev = leaf.dev?;
    Some(ScanLeaf {
        dev,
        eligible: true,
    })
}

fn drop_in(leaves: &mut [ScanLeaf], dev: u32)
    ensures { leaves.new ≡ map (dropped dev) leaves.old }
{
    for i in 0..leaves.len() {
        leaves[i] = dropped(leaves[i], dev);
    }
}

fn dropped(leaf: ScanLeaf, dev: u32) -> ScanLeaf
    ensures { result ≡ dropped dev leaf }
{
    if leaf.dev == dev {
        ScanLeaf {
            eligible: false,
            ..leaf
        }
    } else {
        leaf
    }
}
