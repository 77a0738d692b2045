//! Calls that put a leaf into a tree.
ghost use Rattle.std.specs.Prelude.{◌≡◌, ◌<◌, ◌≤◌, ◌+◌, ◌++◌, ◌∷◌, [], true, None, length, get_or, set, IfOk, IfErr, OnOk, OnErr};
ghost use Rattle.std.specs.Vec.{vec_len, vec_capacity};
ghost use Rattle.mp_base.specs.declared.refusal.Refusal.TheVariants.{Memory};
ghost use Rattle.vdev_tree.specs.declared.vdev.Vdev.TheVariants.{Leaf};
ghost use Rattle.vdev_tree.specs.Tree.{leaves, is_top, guid_of};
ghost use Rattle.vdev_tree.specs.Children.{Child, alone, only, children_of, IsChild, IsInner};
ghost use Rattle.vdev_tree.specs.Edits.{may_be_replaced, replaced, may_get_spare, with_spare, mirror_refusal, replacing_refusal, spare_refusal, refusal_of, allows, is_graft, grafted, Edits, PutBehind, EndsFor};

use crate::seat::Edit;
use crate::top::Top;
use crate::vdev::{InnerVdev, Kind, LeafVdev, Vdev};
use mp_base::{Guid, Refusal};
use std::alloc::Global;
use std::mem;

/// A leaf that wasn't put into a tree, and why.
#[derive(Drop)]
pub struct GraftFault {
    pub why: Refusal,
    pub leaf: LeafVdev,
}

impl Top {
    /// The leaf becomes the last child of the mirror in which the leaf `at` is a child. It is refused where
    /// `at` is no leaf of this tree (`NoVdev`), where it is no child of the mirror (`WrongPlace`), where the
    /// mirror has 8 children (`TreeFull`), and for want of memory. Then the tree is as it was.
    pub fn graft_mirror(&mut self, at: Guid, leaf: LeafVdev) -> Result<(), GraftFault>
        ensures may { OnOk result (mirror_refusal at (children_of self.old.mirror) ≡ None) }
        ensures tree { OnOk result (children_of self.new.mirror ≡ children_of self.old.mirror ++ alone (only leaf) ∷ []) }
        ensures leaves { OnOk result (leaves self.new.mirror ≡ leaves self.old.mirror ++ leaf ∷ []) }
        ensures why { IfErr result (λ fault. EndsFor (mirror_refusal at (children_of self.old.mirror)) fault.why) }
        ensures leaf { IfErr result (λ fault. fault.leaf ≡ leaf) }
        ensures unchanged { OnErr result (children_of self.new.mirror ≡ children_of self.old.mirror) }
        ensures guid { guid_of self.new.mirror ≡ guid_of self.old.mirror }
        ensures sectors { self.new.sectors ≡ self.old.sectors }
    {
        match self.seat(Edit::Attach, at) {
            Ok(_) => graft_last(&mut self.mirror, leaf),
            Err(why) => Err(GraftFault { why, leaf }),
        }
    }

    /// The leaf takes over from the leaf `at`: they become the new and the old leaf of a replacing vdev of
    /// the number `guid`. It is refused where `at` is no leaf of this tree (`NoVdev`), where it is neither a
    /// child of the mirror nor the first child of a spare vdev (`WrongPlace`), and for want of memory. Then
    /// the tree is as it was.
    pub fn graft_replacing(
        &mut self,
        at: Guid,
        guid: Guid,
        leaf: LeafVdev,
    ) -> Result<(), GraftFault>
        ensures may { OnOk result (replacing_refusal at (children_of self.old.mirror) ≡ None) }
        ensures tree { OnOk result (Edits (may_be_replaced at) (λ c. replaced guid leaf c ∷ []) (children_of self.old.mirror) (children_of self.new.mirror)) }
        ensures leaves { OnOk result (PutBehind at leaf (leaves self.old.mirror) (leaves self.new.mirror)) }
        ensures why { IfErr result (λ fault. EndsFor (replacing_refusal at (children_of self.old.mirror)) fault.why) }
        ensures leaf { IfErr result (λ fault. fault.leaf ≡ leaf) }
        ensures unchanged { OnErr result (children_of self.new.mirror ≡ children_of self.old.mirror) }
        ensures guid { guid_of self.new.mirror ≡ guid_of self.old.mirror }
        ensures sectors { self.new.sectors ≡ self.old.sectors }
    {
        self.graft(Edit::Replace, at, guid, leaf)
    }

    /// The leaf stands in for the leaf `at`: a child of the mirror becomes the first child of a spare vdev of
    /// the number `guid`, and the leaf its spare leaf; where `at` is the only spare leaf of a spare vdev, the
    /// leaf becomes its second, and `guid` isn't used. It is refused where `at` is no leaf of this tree
    /// (`NoVdev`), where it stands elsewhere (`WrongPlace`), and for want of memory. Then the tree is as it
    /// was.
    pub fn graft_spare(&mut self, at: Guid, guid: Guid, leaf: LeafVdev) -> Result<(), GraftFault>
        ensures may { OnOk result (spare_refusal at (children_of self.old.mirror) ≡ None) }
        ensures tree { OnOk result (Edits (may_get_spare at) (λ c. with_spare guid leaf c ∷ []) (children_of self.old.mirror) (children_of self.new.mirror)) }
        ensures leaves { OnOk result (PutBehind at leaf (leaves self.old.mirror) (leaves self.new.mirror)) }
        ensures why { IfErr result (λ fault. EndsFor (spare_refusal at (children_of self.old.mirror)) fault.why) }
        ensures leaf { IfErr result (λ fault. fault.leaf ≡ leaf) }
        ensures unchanged { OnErr result (children_of self.new.mirror ≡ children_of self.old.mirror) }
        ensures guid { guid_of self.new.mirror ≡ guid_of self.old.mirror }
        ensures sectors { self.new.sectors ≡ self.old.sectors }
    {
        self.graft(Edit::AddSpare, at, guid, leaf)
    }

    /// Puts the leaf behind the leaf `at`.
    fn graft(&mut self, edit: Edit, at: Guid, guid: Guid, leaf: LeafVdev) -> Result<(), GraftFault>
        requires { is_graft edit ≡ true }
        ensures may { OnOk result (refusal_of edit at (children_of self.old.mirror) ≡ None) }
        ensures tree { OnOk result (Edits (allows edit at) (λ c. grafted edit guid leaf c ∷ []) (children_of self.old.mirror) (children_of self.new.mirror)) }
        ensures leaves { OnOk result (PutBehind at leaf (leaves self.old.mirror) (leaves self.new.mirror)) }
        ensures why { IfErr result (λ fault. EndsFor (refusal_of edit at (children_of self.old.mirror)) fault.why) }
        ensures leaf { IfErr result (λ fault. fault.leaf ≡ leaf) }
        ensures unchanged { OnErr result (children_of self.new.mirror ≡ children_of self.old.mirror) }
        ensures guid { guid_of self.new.mirror ≡ guid_of self.old.mirror }
        ensures sectors { self.new.sectors ≡ self.old.sectors }
    {
        match self.seat(edit, at) {
            Ok(place) => graft_at(&mut self.mirror, place, edit, guid, leaf),
            Err(why) => Err(GraftFault { why, leaf }),
        }
    }
}

/// The leaf becomes the last child.
fn graft_last(mirror: &mut Vdev, leaf: LeafVdev) -> Result<(), GraftFault>
    requires top { is_top mirror.old ≡ true }
    requires room { length (children_of mirror.old) < 8 }
    ensures top { is_top mirror.new ≡ true }
    ensures tree { OnOk result (children_of mirror.new ≡ children_of mirror.old ++ alone (only leaf) ∷ []) }
    ensures unchanged { OnErr result (children_of mirror.new ≡ children_of mirror.old) }
    ensures guid { guid_of mirror.new ≡ guid_of mirror.old }
    ensures leaf { IfErr result (λ fault. fault.leaf ≡ leaf) }
    ensures why { IfErr result (λ fault. fault.why ≡ Memory) }
{
    match mirror {
        Vdev::Leaf(_) => unreachable!(),
        Vdev::Inner(inner) => push_leaf(&mut inner.children, leaf),
    }
}

/// The leaf comes behind the one that is met in the child at this place.
fn graft_at(
    mirror: &mut Vdev,
    place: usize,
    edit: Edit,
    guid: Guid,
    leaf: LeafVdev,
) -> Result<(), GraftFault>
    requires kind { is_graft edit ≡ true }
    requires top { is_top mirror.old ≡ true }
    requires inside { place < length (children_of mirror.old) }
    requires allowed { (at : Guid) × ((d : Child) → allows edit at (get_or (children_of mirror.old) place d) ≡ true) }
    ensures top { is_top mirror.new ≡ true }
    ensures tree { OnOk result ((d : Child) → children_of mirror.new ≡ set (children_of mirror.old) place (grafted edit guid leaf (get_or (children_of mirror.old) place d))) }
    ensures unchanged { OnErr result (children_of mirror.new ≡ children_of mirror.old) }
    ensures guid { guid_of mirror.new ≡ guid_of mirror.old }
    ensures leaf { IfErr result (λ fault. fault.leaf ≡ leaf) }
    ensures why { IfErr result (λ fault. fault.why ≡ Memory) }
{
    match mirror {
        Vdev::Leaf(_) => unreachable!(),
        Vdev::Inner(inner) => {
            let alloc = *inner.children.allocator();
            graft_in(alloc, &mut inner.children[place], edit, guid, leaf)
        }
    }
}

fn graft_in(
    alloc: Global,
    child: &mut Vdev,
    edit: Edit,
    guid: Guid,
    leaf: LeafVdev,
) -> Result<(), GraftFault>
    requires kind { is_graft edit ≡ true }
    requires allowed { (at : Guid) × (c : Child) × IsChild child.old c × (allows edit at c ≡ true) }
    ensures tree { OnOk result ((c : Child) → IsChild child.old c → IsChild child.new (grafted edit guid leaf c)) }
    ensures unchanged { OnErr result ((c : Child) → IsChild child.old c → IsChild child.new c) }
    ensures leaf { IfErr result (λ fault. fault.leaf ≡ leaf) }
    ensures why { IfErr result (λ fault. fault.why ≡ Memory) }
{
    match edit {
        Edit::Replace => replace_in(alloc, child, guid, leaf),
        Edit::AddSpare => spare_in(alloc, child, guid, leaf),
        Edit::Attach | Edit::Prune => unreachable!(),
    }
}

fn replace_in(alloc: Global, child: &mut Vdev, guid: Guid, leaf: LeafVdev) -> Result<(), GraftFault>
    requires { (at : Guid) × (c : Child) × IsChild child.old c × (may_be_replaced at c ≡ true) }
    ensures tree { OnOk result ((c : Child) → IsChild child.old c → IsChild child.new (replaced guid leaf c)) }
    ensures unchanged { OnErr result ((c : Child) → IsChild child.old c → IsChild child.new c) }
    ensures leaf { IfErr result (λ fault. fault.leaf ≡ leaf) }
    ensures why { IfErr result (λ fault. fault.why ≡ Memory) }
{
    match child {
        Vdev::Leaf(_) => wrap(alloc, child, Kind::Replacing, guid, leaf),
        Vdev::Inner(spare) => wrap(alloc, &mut spare.children[0], Kind::Replacing, guid, leaf),
    }
}

fn spare_in(alloc: Global, child: &mut Vdev, guid: Guid, leaf: LeafVdev) -> Result<(), GraftFault>
    requires { (at : Guid) × (c : Child) × IsChild child.old c × (may_get_spare at c ≡ true) }
    ensures tree { OnOk result ((c : Child) → IsChild child.old c → IsChild child.new (with_spare guid leaf c)) }
    ensures unchanged { OnErr result ((c : Child) → IsChild child.old c → IsChild child.new c) }
    ensures leaf { IfErr result (λ fault. fault.leaf ≡ leaf) }
    ensures why { IfErr result (λ fault. fault.why ≡ Memory) }
{
    match child {
        Vdev::Leaf(_) => wrap(alloc, child, Kind::Spare, guid, leaf),
        Vdev::Inner(spare) => push_leaf(&mut spare.children, leaf),
    }
}

/// An inner vdev over what stood here and this leaf takes its place.
fn wrap(
    alloc: Global,
    slot: &mut Vdev,
    kind: Kind,
    guid: Guid,
    leaf: LeafVdev,
) -> Result<(), GraftFault>
    ensures inner { OnOk result (IsInner slot.new guid kind (slot.old ∷ Leaf leaf ∷ [])) }
    ensures unchanged { OnErr result (slot.new ≡ slot.old) }
    ensures leaf { IfErr result (λ fault. fault.leaf ≡ leaf) }
    ensures why { IfErr result (λ fault. fault.why ≡ Memory) }
{
    let Ok(mut children) = Vec::with_capacity(alloc, 2) else {
        return Err(no_memory(leaf));
    };
    let nothing = Vdev::Inner(InnerVdev {
        guid,
        kind,
        children: Vec::new(alloc),
    });
    put(&mut children, mem::replace(slot, nothing));
    put(&mut children, Vdev::Leaf(leaf));
    *slot = Vdev::Inner(InnerVdev {
        guid,
        kind,
        children,
    });
    Ok(())
}

/// Puts the vdev behind these, where there is room.
pub(crate) fn put(vdevs: &mut Vec<Vdev>, vdev: Vdev)
    requires { vec_len vdevs.old < vec_capacity vdevs.old }
    ensures items { vdevs.new.items ≡ vdevs.old.items ++ vdev ∷ [] }
    ensures len { vec_len vdevs.new ≡ vec_len vdevs.old + 1 }
    ensures capacity { vec_capacity vdevs.old ≤ vec_capacity vdevs.new }
{
    match vdevs.push(vdev) {
        Ok(()) => {}
        Err(_) => unreachable!(),
    }
}

fn push_leaf(vdevs: &mut Vec<Vdev>, leaf: LeafVdev) -> Result<(), GraftFault>
    ensures items { OnOk result (vdevs.new.items ≡ vdevs.old.items ++ Leaf leaf ∷ []) }
    ensures unchanged { OnErr result (vdevs.new.items ≡ vdevs.old.items) }
    ensures leaf { IfErr result (λ fault. fault.leaf ≡ leaf) }
    ensures why { IfErr result (λ fault. fault.why ≡ Memory) }
{
    let Err(failed) = vdevs.push(Vdev::Leaf(leaf)) else {
        return Ok(());
    };
    match failed.value {
        Vdev::Leaf(leaf) => Err(no_memory(leaf)),
        Vdev::Inner(_) => unreachable!(),
    }
}

fn no_memory(leaf: LeafVdev) -> GraftFault
    ensures leaf { result.leaf ≡ leaf }
    ensures why { result.why ≡ Memory }
{
    GraftFault {
        why: Refusal::Memory,
        leaf,
    }
}
