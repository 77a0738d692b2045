//! Room for a commit in the two sets of each leaf.
ghost use Rattle.std.specs.Prelude.{◌≡◌, ◌≤◌, length, All, OnOk};
ghost use Rattle.std.specs.List.{flat_map, AllZip};
ghost use Rattle.vdev_tree.specs.Tree.{leaves, marks, form_of};
ghost use Rattle.vdev_tree.specs.Changes.{form_alone};
ghost use Rattle.dtl_rules.specs.Widening.{leaves_of, marks_of, sectors_of};
ghost use Rattle.txg_engine.specs.Logs.{KeepsSets, HasCommitRoom};

use mp_base::MemFault;
use vdev_tree::{InnerVdev, LeafVdev, Top, Vdev};

/// Runs of groups that a commit adds to a log at most.
const RUNS: usize = 2;

/// Makes room for the runs that a commit may add to each log, and for settling it. Where there is no memory, some leaves may
/// have got theirs.
pub(crate) fn reserve_sets(tops: &mut [Top]) -> Result<(), MemFault>
    ensures room { OnOk result (All HasCommitRoom (leaves_of tops.new)) }
    ensures leaves { AllZip KeepsSets (leaves_of tops.old) (leaves_of tops.new) }
    ensures built { marks_of tops.new ≡ marks_of tops.old }
    ensures sectors { sectors_of tops.new ≡ sectors_of tops.old }
{
    for i in 0..tops.len() {
        let top = &mut tops[i];
        reserve_top(top)?;
    }
    Ok(())
}

fn reserve_top(top: &mut Top) -> Result<(), MemFault>
    ensures room { OnOk result (All HasCommitRoom (leaves top.new.mirror)) }
    ensures leaves { AllZip KeepsSets (leaves top.old.mirror) (leaves top.new.mirror) }
    ensures built { marks top.new.mirror ≡ marks top.old.mirror }
    ensures sectors { top.new.sectors ≡ top.old.sectors }
{
    reserve_leaves(&mut top.mirror)
}

#[cycle(reserve)]
fn reserve_leaves(vdev: &mut Vdev) -> Result<(), MemFault>
    ensures room { OnOk result (All HasCommitRoom (leaves vdev.new)) }
    ensures leaves { AllZip KeepsSets (leaves vdev.old) (leaves vdev.new) }
    ensures built { marks vdev.new ≡ marks vdev.old }
    ensures form { form_of vdev.new ≡ form_of vdev.old }
{
    match vdev {
        Vdev::Leaf(leaf) => reserve_leaf(leaf),
        Vdev::Inner(inner) => reserve_children(inner),
    }
}

#[cycle(reserve)]
fn reserve_children(inner: &mut InnerVdev) -> Result<(), MemFault>
    ensures room { OnOk result (All HasCommitRoom (flat_map leaves inner.new.children.items)) }
    ensures leaves { AllZip KeepsSets (flat_map leaves inner.old.children.items) (flat_map leaves inner.new.children.items) }
    ensures built { flat_map marks inner.new.children.items ≡ flat_map marks inner.old.children.items }
    ensures forms { flat_map form_alone inner.new.children.items ≡ flat_map form_alone inner.old.children.items }
    ensures guid { inner.new.guid ≡ inner.old.guid }
    ensures kind { inner.new.kind ≡ inner.old.kind }
{
    for i in 0..inner.children.len() {
        reserve_leaves(&mut inner.children[i])?;
    }
    Ok(())
}

fn reserve_leaf(leaf: &mut LeafVdev) -> Result<(), MemFault>
    ensures room { OnOk result (HasCommitRoom leaf.new) }
    ensures keeps { KeepsSets leaf.old leaf.new }
{
    leaf.log.reserve(RUNS)?;
    let ranges = leaf.log.ranges().checked_add(1).ok_or(MemFault)?;
    leaf.settled.reserve(ranges)
}
