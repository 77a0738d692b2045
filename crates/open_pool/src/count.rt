//! What the calls of a read count on the leaves of a block's top, and on the board of a frozen group.
ghost use Rattle.std.specs.Prelude.{◌≡◌, ◌<◌, List, Some, length, map, slice_get};
ghost use Rattle.std.specs.List.{flat_map, AllZip};
ghost use Rattle.std.specs.Option.{option_map};
ghost use Rattle.vdev_tree.specs.Tree.{leaves, form_of};
ghost use Rattle.vdev_tree.specs.Changes.{form_alone};
ghost use Rattle.vdev_tree.specs.declared.vdev.LeafVdev.{LeafVdev};
ghost use Rattle.pool_config.specs.Seen.{vdevs_of};
ghost use Rattle.open_pool.specs.Counting.{counted_by, counts_of, counted_leaf, counted_top, counted_tops, counted_group, counted_groups, up_if};
ghost use Rattle.open_pool.specs.Parts.{top_parts, all_parts};
ghost use Rattle.open_pool.specs.State.{leaves_under};

use mirror_io::{CopyOf, CopySeen};
use mp_base::Guid;
use txg_engine::Frozen;
use vdev_tree::{InnerVdev, LeafVdev, Top, Vdev};

/// What is counted on a leaf: whether a read failed, a write, and whether it gave wrong bytes.
#[derive(Clone, Copy, Debug, PartialEq, Eq)]
pub(crate) struct Counted {
    pub(crate) member: Guid,
    pub(crate) reads: bool,
    pub(crate) writes: bool,
    pub(crate) mismatches: bool,
}

/// Counts what each copy showed on its leaf, which stands under the top at this place. A failed call counts on the board, too.
pub(crate) fn count_read(
    tops: &mut [Top],
    place: usize,
    frozen: &mut Option<Frozen>,
    copies: &[CopyOf],
    seen: &[CopySeen],
    served: bool,
)
    requires inside { place < length tops.old }
    requires paired { length copies.now ≡ length seen.now }
    requires each { (under : List LeafVdev) → slice_get (leaves_under (all_parts tops.old)) place ≡ Some under
        → length under ≡ length seen.now }
    ensures tops { (under : List LeafVdev) → slice_get (leaves_under (all_parts tops.old)) place ≡ Some under
        → all_parts tops.new ≡ counted_tops (counts_of served under copies.now seen.now) (all_parts tops.old) }
    ensures group { (under : List LeafVdev) → slice_get (leaves_under (all_parts tops.old)) place ≡ Some under
        → frozen.new ≡ counted_groups (counts_of served under copies.now seen.now) frozen.old }
    ensures long { length tops.new ≡ length tops.old }
{
    for i in 0..seen.len() {
        let Some(leaf) = tops[place].leaf_at(i) else {
            return;
        };
        let counted = counted_by(leaf.guid, copies[i], seen[i], served);
        count_calls(tops, frozen, counted);
    }
}

fn counted_by(member: Guid, copy: CopyOf, seen: CopySeen, served: bool) -> Counted
    ensures { result ≡ counted_by served member copy seen }
{
    let mismatch = matches!(seen, CopySeen::Mismatch);
    Counted {
        member,
        reads: matches!(seen, CopySeen::Failed),
        writes: mismatch && !copy.lacks && served,
        mismatches: mismatch || matches!(seen, CopySeen::Healed),
    }
}

fn count_calls(tops: &mut [Top], frozen: &mut Option<Frozen>, counted: Counted)
    ensures tops { all_parts tops.new ≡ map (counted_top counted) (all_parts tops.old) }
    ensures group { frozen.new ≡ option_map (counted_group counted) frozen.old }
{
    count_tops(tops, counted);
    if let Some(group) = frozen {
        count_fault(group, counted);
    }
}

fn count_fault(group: &mut Frozen, counted: Counted)
    ensures { group.new ≡ counted_group counted group.old }
{
    if counted.reads || counted.writes {
        group.count_fault(counted.member);
    }
}

fn count_tops(tops: &mut [Top], counted: Counted)
    ensures { all_parts tops.new ≡ map (counted_top counted) (all_parts tops.old) }
{
    for i in 0..tops.len() {
        let top = &mut tops[i];
        count_top(top, counted);
    }
}

fn count_top(top: &mut Top, counted: Counted)
    ensures { top_parts top.new ≡ counted_top counted (top_parts top.old) }
{
    count_vdev(&mut top.mirror, counted);
}

#[cycle(count)]
fn count_vdev(vdev: &mut Vdev, counted: Counted)
    ensures leaves { AllZip (λ old new. new ≡ counted_leaf counted old) (leaves vdev.old) (leaves vdev.new) }
    ensures told { vdevs_of vdev.new ≡ vdevs_of vdev.old }
    ensures form { form_of vdev.new ≡ form_of vdev.old }
{
    match vdev {
        Vdev::Leaf(leaf) => count_leaf(leaf, counted),
        Vdev::Inner(inner) => count_children(inner, counted),
    }
}

#[cycle(count)]
fn count_children(inner: &mut InnerVdev, counted: Counted)
    ensures leaves { AllZip (λ old new. new ≡ counted_leaf counted old) (flat_map leaves inner.old.children.items) (flat_map leaves inner.new.children.items) }
    ensures told { flat_map vdevs_of inner.new.children.items ≡ flat_map vdevs_of inner.old.children.items }
    ensures forms { flat_map form_alone inner.new.children.items ≡ flat_map form_alone inner.old.children.items }
    ensures many { length inner.new.children.items ≡ length inner.old.children.items }
    ensures guid { inner.new.guid ≡ inner.old.guid }
    ensures kind { inner.new.kind ≡ inner.old.kind }
{
    let count = inner.children.len();
    for i in 0..count {
        count_vdev(&mut inner.children[i], counted);
    }
}

fn count_leaf(leaf: &mut LeafVdev, counted: Counted)
    ensures { leaf.new ≡ counted_leaf counted leaf.old }
{
    if leaf.guid != counted.member {
        return;
    }
    leaf.counts.reads = up_if(counted.reads, leaf.counts.reads);
    leaf.counts.writes = up_if(counted.writes, leaf.counts.writes);
    leaf.counts.mismatches = up_if(counted.mismatches, leaf.counts.mismatches);
}

fn up_if(counts: bool, n: u64) -> u64
    ensures { result ≡ up_if counts n }
{
    if counts { n.saturating_add(1) } else { n }
}
