//! The outage rule: which device may not go.
ghost use Rattle.std.specs.Prelude.{◌≡◌, ℕ, ◌==◌, ◌≤◌, false, ◌∷◌, [], IfSome, IfNone, IsSomeAnd};
ghost use Rattle.vdev_tree.specs.Tree.{guid_of};
ghost use Rattle.dtl_rules.specs.Rules.{others, outage_of, LeastOut, SomeOut, LeastNeeded, IsRequired, PassedTo};

use mp_base::{Group, Guid};
use vdev_tree::{LeafVdev, Top, Vdev};

/// The number that stands for the root, since vdevs are numbered from 1.
pub const ROOT: Guid = Guid(0);

/// The least group that could be read from no leaf of the top if the vdev of this number were unreadable.
/// Where there is such a group, the vdev is required: it may not be taken offline or detached.
pub fn required(top: &Top, at: Guid) -> Option<Group>
    ensures required { IfSome result (λ g. LeastNeeded top.now at g.0) }
    ensures free { IfNone result (¬ IsRequired top.now at) }
    ensures root { at.0 ≡ 0 → IsSomeAnd result (λ g. g.0 ≡ 1) }
    ensures top { guid_of top.now.mirror ≡ at → IsSomeAnd result (λ g. g.0 ≡ 1) }
{
    if is_at(at, ROOT) {
        return Some(Group(1));
    }
    if is_at(top.mirror.guid(), at) {
        return Some(Group(1));
    }
    least_out(&top.mirror, at)
}

fn is_at(number: Guid, at: Guid) -> bool
    ensures { result ≡ (number.0 == at.0) }
{
    number.0 == at.0
}

/// The least group that is out for all leaves which are not under the vdev of this number.
fn least_out(vdev: &Vdev, at: Guid) -> Option<Group>
    ensures some { IfSome result (λ g. LeastOut (others at.0 vdev.now) g.0) }
    ensures none { IfNone result (¬ SomeOut (others at.0 vdev.now)) }
{
    let mut group = 1;
    loop {
        let next = passed(vdev, at, group)?;
        if next == group {
            return Some(Group(group));
        }
        group = next;
    }
}

/// A group from this one on before which none is out for all leaves that are not under the vdev of this
/// number. It is `from` itself only where that is out for all of them.
fn passed(vdev: &Vdev, at: Guid, from: u64) -> Option<u64>
    ensures some { IfSome result (λ g. PassedTo (others at.0 vdev.now) from g) }
    ensures none { IfNone result ((g : ℕ) → from ≤ g → outage_of (others at.0 vdev.now) g ≡ false) }
{
    match vdev {
        Vdev::Leaf(leaf) => {
            if is_at(leaf.guid, at) {
                return Some(from);
            }
            passed_by_leaf(leaf, from)
        }
        Vdev::Inner(inner) => {
            if is_at(inner.guid, at) {
                return Some(from);
            }
            let mut group = from;
            for child in &inner.children {
                group = passed(child, at, group)?;
            }
            Some(group)
        }
    }
}

#[tactic(auto, using(crate::proofs::Passing::passed_leaf))]
fn passed_by_leaf(leaf: &LeafVdev, from: u64) -> Option<u64>
    ensures some { IfSome result (λ g. PassedTo (leaf.now ∷ []) from g) }
    ensures none { IfNone result ((g : ℕ) → from ≤ g → outage_of (leaf.now ∷ []) g ≡ false) }
{
    if !leaf.state.is_up() {
        return Some(from);
    }
    let group = leaf.log.next_group(Group(from))?;
    Some(group.0)
}
