//! The call that takes a leaf out of a tree.
ghost use Rattle.std.specs.Prelude.{◌≡◌, Option, ◌<◌, ◌≤◌, ◌+◌, ◌++◌, ◌∷◌, [], true, false, Some, None, length, get_or, take, drop, cond, IfOk, IfErr, OnOk, OnErr, option_to_list};
ghost use Rattle.std.specs.List.{list_any};
ghost use Rattle.std.specs.Vec.{vec_len, vec_capacity};
ghost use Rattle.vdev_tree.specs.declared.vdev.LeafVdev.{LeafVdev};
ghost use Rattle.vdev_tree.specs.declared.vdev.Vdev.TheVariants.{Leaf};
ghost use Rattle.vdev_tree.specs.declared.vdev.Kind.TheVariants.{Spare};
ghost use Rattle.vdev_tree.specs.Tree.{leaves, is_top, guid_of};
ghost use Rattle.vdev_tree.specs.Children.{Member, Child, spared, children_of, IsChild, IsMember, spare_vdevs, member_leaves};
ghost use Rattle.vdev_tree.specs.Edits.{is_at, has, other, promoted, pruned, prune_refusal, is_single, Edits, TakenOut, Cuts};

use crate::graft::put;
use crate::seat::Edit;
use crate::top::Top;
use crate::vdev::{InnerVdev, LeafVdev, Vdev};
use mp_base::{Guid, Refusal};

/// Why a leaf wasn't taken out of a tree.
#[derive(Drop)]
pub struct PruneFault(pub Refusal);

impl Top {
    /// Takes the leaf `at` out. A replacing vdev becomes its other leaf. A spare vdev without its last spare
    /// leaf becomes its first child; one that lost the leaf that was its first child puts its first spare
    /// leaf there, and becomes it where no spare leaf is left. It is refused where `at` is no leaf of this
    /// tree (`NoVdev`), and for the only leaf (`WrongPlace`). It takes no memory.
    pub fn prune(&mut self, at: Guid) -> Result<LeafVdev, PruneFault>
        ensures may { OnOk result (prune_refusal at (children_of self.old.mirror) ≡ None) }
        ensures tree { OnOk result (Edits (has at) (pruned at) (children_of self.old.mirror) (children_of self.new.mirror)) }
        ensures leaves { IfOk result (λ leaf. TakenOut at leaf (leaves self.old.mirror) (leaves self.new.mirror)) }
        ensures why { IfErr result (λ fault. prune_refusal at (children_of self.old.mirror) ≡ Some fault.0) }
        ensures unchanged { OnErr result (self.new.mirror ≡ self.old.mirror) }
        ensures guid { guid_of self.new.mirror ≡ guid_of self.old.mirror }
        ensures sectors { self.new.sectors ≡ self.old.sectors }
    {
        match self.seat(Edit::Prune, at) {
            Ok(place) => Ok(prune_at(&mut self.mirror, place, at)),
            Err(why) => Err(PruneFault(why)),
        }
    }
}

/// Takes the leaf out of the child at this place.
fn prune_at(mirror: &mut Vdev, place: usize, at: Guid) -> LeafVdev
    requires top { is_top mirror.old ≡ true }
    requires inside { place < length (children_of mirror.old) }
    requires here { (d : Child) → has at (get_or (children_of mirror.old) place d) ≡ true }
    requires stays { is_single (children_of mirror.old) ≡ false }
    ensures top { is_top mirror.new ≡ true }
    ensures tree { Edits (has at) (pruned at) (children_of mirror.old) (children_of mirror.new) }
    ensures leaves { TakenOut at result (leaves mirror.old) (leaves mirror.new) }
    ensures guid { guid_of mirror.new ≡ guid_of mirror.old }
{
    match mirror {
        Vdev::Leaf(_) => unreachable!(),
        Vdev::Inner(inner) => {
            let cut = cut_out(inner.children.remove(place), at);
            put_rest(&mut inner.children, place, cut.rest);
            cut.leaf
        }
    }
}

/// A leaf that was cut out of a child, and what is left of the child, if anything.
#[derive(Drop)]
struct Cut {
    leaf: LeafVdev,
    rest: Option<Vdev>,
}

/// Puts what is left of the child that stood there back into its place.
fn put_rest(vdevs: &mut Vec<Vdev>, place: usize, rest: Option<Vdev>)
    requires inside { place ≤ vec_len vdevs.old }
    requires room { vec_len vdevs.old < vec_capacity vdevs.old }
    ensures { vdevs.new.items ≡ take place vdevs.old.items ++ (option_to_list rest ++ drop place vdevs.old.items) }
{
    match rest {
        None => {}
        Some(vdev) => put_in(vdevs, place, vdev),
    }
}

/// Puts the vdev in there, where there is room.
fn put_in(vdevs: &mut Vec<Vdev>, place: usize, vdev: Vdev)
    requires inside { place ≤ vec_len vdevs.old }
    requires room { vec_len vdevs.old < vec_capacity vdevs.old }
    ensures items { vdevs.new.items ≡ take place vdevs.old.items ++ vdev ∷ drop place vdevs.old.items }
    ensures len { vec_len vdevs.new ≡ vec_len vdevs.old + 1 }
    ensures capacity { vec_capacity vdevs.old ≤ vec_capacity vdevs.new }
{
    match vdevs.insert(place, vdev) {
        Ok(()) => {}
        Err(_) => unreachable!(),
    }
}

fn cut_out(child: Vdev, at: Guid) -> Cut
    requires { (c : Child) × IsChild child c × (has at c ≡ true) }
    ensures { (c : Child) → IsChild child c → Cuts at result.leaf result.rest c }
{
    match child {
        Vdev::Leaf(leaf) => Cut { leaf, rest: None },
        Vdev::Inner(inner) => {
            if inner.kind.is_spare() {
                cut_spare(inner, at)
            } else {
                cut_replacing(inner, at)
            }
        }
    }
}

/// A replacing vdev becomes its other leaf.
fn cut_replacing(mut replacing: InnerVdev, at: Guid) -> Cut
    requires { (old : LeafVdev) × (new : LeafVdev) × (replacing.children.items ≡ Leaf old ∷ Leaf new ∷ []) }
    ensures leaf { (old new : LeafVdev) → replacing.children.items ≡ Leaf old ∷ Leaf new ∷ [] → result.leaf ≡ cond (is_at at old) old new }
    ensures rest { (old new : LeafVdev) → replacing.children.items ≡ Leaf old ∷ Leaf new ∷ [] → result.rest ≡ Some (Leaf (other at old new)) }
{
    let pair = split(&mut replacing.children, at);
    Cut {
        leaf: pair.gone,
        rest: Some(Vdev::Leaf(pair.stays)),
    }
}

/// Two leaves, of which one goes.
#[derive(Drop)]
struct Pair {
    gone: LeafVdev,
    stays: LeafVdev,
}

/// Takes both leaves out, and tells which of them has this number.
fn split(leaves: &mut Vec<Vdev>, at: Guid) -> Pair
    requires { (old : LeafVdev) × (new : LeafVdev) × (leaves.old.items ≡ Leaf old ∷ Leaf new ∷ []) }
    ensures gone { (old new : LeafVdev) → leaves.old.items ≡ Leaf old ∷ Leaf new ∷ [] → result.gone ≡ cond (is_at at old) old new }
    ensures stays { (old new : LeafVdev) → leaves.old.items ≡ Leaf old ∷ Leaf new ∷ [] → result.stays ≡ other at old new }
    ensures items { leaves.new.items ≡ [] }
    ensures len { vec_len leaves.new ≡ 0 }
    ensures capacity { 2 ≤ vec_capacity leaves.new }
{
    let first = only_leaf(leaves.remove(0));
    let second = only_leaf(leaves.remove(0));
    if first.guid == at {
        Pair {
            gone: first,
            stays: second,
        }
    } else {
        Pair {
            gone: second,
            stays: first,
        }
    }
}

fn only_leaf(vdev: Vdev) -> LeafVdev
    requires { (leaf : LeafVdev) × (vdev ≡ Leaf leaf) }
    ensures { vdev ≡ Leaf result }
{
    match vdev {
        Vdev::Leaf(leaf) => leaf,
        Vdev::Inner(_) => unreachable!(),
    }
}

fn cut_spare(mut spare: InnerVdev, at: Guid) -> Cut
    requires kind { spare.kind ≡ Spare }
    requires some { (below : Vdev) × (m : Member) × (s : LeafVdev) × (t : Option LeafVdev) × IsMember below m × (spare.children.items ≡ below ∷ spare_vdevs s t) × (has at (spared spare.guid m s t) ≡ true) }
    ensures { (below : Vdev) (m : Member) (s : LeafVdev) (t : Option LeafVdev) → IsMember below m → spare.children.items ≡ below ∷ spare_vdevs s t → Cuts at result.leaf result.rest (spared spare.guid m s t) }
{
    let first = spare.children.remove(0);
    if first.has(at) {
        cut_first(spare, first, at)
    } else {
        cut_behind(spare, first, at)
    }
}

/// The leaf is under the first child. These are the spare leaves of the spare vdev.
fn cut_first(mut spare: InnerVdev, first: Vdev, at: Guid) -> Cut
    requires kind { spare.kind ≡ Spare }
    requires room { vec_len spare.children < vec_capacity spare.children }
    requires some { (m : Member) × (s : LeafVdev) × (t : Option LeafVdev) × IsMember first m × (spare.children.items ≡ spare_vdevs s t) × (list_any (is_at at) (member_leaves m) ≡ true) }
    ensures { (m : Member) (s : LeafVdev) (t : Option LeafVdev) → IsMember first m → spare.children.items ≡ spare_vdevs s t → Cuts at result.leaf result.rest (spared spare.guid m s t) }
{
    match first {
        Vdev::Leaf(leaf) => Cut {
            leaf,
            rest: Some(promoted(spare)),
        },
        Vdev::Inner(mut replacing) => {
            let pair = split(&mut replacing.children, at);
            put_in(&mut spare.children, 0, Vdev::Leaf(pair.stays));
            Cut {
                leaf: pair.gone,
                rest: Some(Vdev::Inner(spare)),
            }
        }
    }
}

/// The first spare leaf becomes the first child, or the whole where there is no other.
fn promoted(mut spare: InnerVdev) -> Vdev
    requires kind { spare.kind ≡ Spare }
    requires some { (s : LeafVdev) × (t : Option LeafVdev) × (spare.children.items ≡ spare_vdevs s t) }
    ensures { (s : LeafVdev) (t : Option LeafVdev) → spare.children.items ≡ spare_vdevs s t → IsChild result (promoted spare.guid s t) }
{
    if spare.children.len() <= 1 {
        spare.children.remove(0)
    } else {
        Vdev::Inner(spare)
    }
}

/// The leaf is a spare leaf. These are the spare leaves of the spare vdev.
fn cut_behind(mut spare: InnerVdev, first: Vdev, at: Guid) -> Cut
    requires kind { spare.kind ≡ Spare }
    requires some { (m : Member) × (s : LeafVdev) × (t : Option LeafVdev) × IsMember first m × (spare.children.items ≡ spare_vdevs s t) × (list_any (is_at at) (member_leaves m) ≡ false) × (has at (spared spare.guid m s t) ≡ true) }
    ensures { (m : Member) (s : LeafVdev) (t : Option LeafVdev) → IsMember first m → spare.children.items ≡ spare_vdevs s t → Cuts at result.leaf result.rest (spared spare.guid m s t) }
{
    if spare.children.len() == 1 {
        let leaf = only_leaf(spare.children.remove(0));
        return Cut {
            leaf,
            rest: Some(first),
        };
    }
    let pair = split(&mut spare.children, at);
    put(&mut spare.children, first);
    put(&mut spare.children, Vdev::Leaf(pair.stays));
    Cut {
        leaf: pair.gone,
        rest: Some(Vdev::Inner(spare)),
    }
}
