//! Calls that change the leaves of a tree and leave the tree as it is built.
ghost use Rattle.std.specs.Prelude.{◌≡◌, ◌^◌, ◌≤◌, ◌∷◌, [], map, All, OnOk};
ghost use Rattle.std.specs.List.{flat_map, AllZip};
ghost use Rattle.vdev_tree.specs.declared.vdev.LeafVdev.{LeafVdev};
ghost use Rattle.vdev_tree.specs.Tree.{leaves, marks, form_of};
ghost use Rattle.vdev_tree.specs.Changes.{form_alone, with_state, brought, marked_at, has_room, Owes, KeepsLog};

use crate::top::Top;
use crate::vdev::{InnerVdev, LeafVdev, State, Vdev};
use mp_base::{Group, Guid, MemFault};

impl Top {
    /// Does this to each leaf, in tree order. How the tree is built, and how many sectors it has, stays.
    pub fn change<C: LeafChange>(&mut self, change: &C)
        requires { All (C.may change.now) (leaves self.old.mirror) }
        ensures leaves { AllZip (C.changes change.now) (leaves self.old.mirror) (leaves self.new.mirror) }
        ensures built { marks self.new.mirror ≡ marks self.old.mirror }
        ensures sectors { self.new.sectors ≡ self.old.sectors }
    {
        change_leaves(&mut self.mirror, change);
    }

    /// Gives the leaf of this number this state. It is `temporary` where it is OFFLINE only until the next
    /// opening.
    pub fn set_state(&mut self, at: Guid, state: State, temporary: bool)
        ensures leaves { leaves self.new.mirror ≡ map (with_state at state temporary) (leaves self.old.mirror) }
        ensures built { marks self.new.mirror ≡ marks self.old.mirror }
        ensures sectors { self.new.sectors ≡ self.old.sectors }
    {
        self.change(&SetState {
            at,
            state,
            temporary,
        });
    }

    /// Brings the leaf of this number back on this device: it is ONLINE, and marked for a resilver.
    pub fn bring(&mut self, at: Guid, dev: u32)
        ensures leaves { leaves self.new.mirror ≡ map (brought at dev) (leaves self.old.mirror) }
        ensures built { marks self.new.mirror ≡ marks self.old.mirror }
        ensures sectors { self.new.sectors ≡ self.old.sectors }
    {
        self.change(&Bring { at, dev });
    }

    /// Marks the leaf of this number to come back.
    pub fn mark(&mut self, at: Guid)
        ensures leaves { leaves self.new.mirror ≡ map (marked_at at) (leaves self.old.mirror) }
        ensures built { marks self.new.mirror ≡ marks self.old.mirror }
        ensures sectors { self.new.sectors ≡ self.old.sectors }
    {
        self.change(&SetMark { at });
    }

    /// Puts the group into the log of each leaf that isn't readable.
    pub fn owe(&mut self, group: Group)
        requires low { 1 ≤ group.0 }
        requires high { group.0 ≤ 2 ^ 62 }
        requires room { All (has_room 1) (leaves self.old.mirror) }
        ensures leaves { AllZip (Owes group.0) (leaves self.old.mirror) (leaves self.new.mirror) }
        ensures built { marks self.new.mirror ≡ marks self.old.mirror }
        ensures sectors { self.new.sectors ≡ self.old.sectors }
    {
        self.change(&Owe { group });
    }

    /// Makes room for at least `n` further runs in each log. Where there is no memory, some logs may have
    /// got theirs.
    pub fn reserve(&mut self, n: usize) -> Result<(), MemFault>
        ensures room { OnOk result (All (has_room n) (leaves self.new.mirror)) }
        ensures leaves { AllZip KeepsLog (leaves self.old.mirror) (leaves self.new.mirror) }
        ensures built { marks self.new.mirror ≡ marks self.old.mirror }
        ensures sectors { self.new.sectors ≡ self.old.sectors }
    {
        reserve_leaves(&mut self.mirror, n)
    }
}

/// What is done to a leaf. A crate above that changes leaves in its own way says how by this, and has it done by
/// [`Top::change`].
pub trait LeafChange {
    /// It may be done to this leaf.
    ghost may: { Self → LeafVdev → Type 0 };

    /// It makes the second leaf of the first.
    ghost changes: { Self → LeafVdev → LeafVdev → Type 0 };

    fn change(&self, leaf: &mut LeafVdev)
        requires { may self.now leaf.old }
        ensures { changes self.now leaf.old leaf.new };
}

#[derive(Drop)]
struct SetState {
    at: Guid,
    state: State,
    temporary: bool,
}

impl LeafChange for SetState {
    ghost may = { λ _ _. Unit {0} };

    ghost changes = { λ c old new. new ≡ with_state c.at c.state c.temporary old };

    fn change(&self, leaf: &mut LeafVdev) {
        if leaf.guid == self.at {
            leaf.state = self.state;
            leaf.temporary = self.temporary;
        }
    }
}

#[derive(Drop)]
struct Bring {
    at: Guid,
    dev: u32,
}

impl LeafChange for Bring {
    ghost may = { λ _ _. Unit {0} };

    ghost changes = { λ c old new. new ≡ brought c.at c.dev old };

    fn change(&self, leaf: &mut LeafVdev) {
        if leaf.guid != self.at {
            return;
        }
        leaf.dev = Some(self.dev);
        leaf.state = State::Online;
        leaf.marked = true;
        leaf.temporary = false;
    }
}

#[derive(Drop)]
struct SetMark {
    at: Guid,
}

impl LeafChange for SetMark {
    ghost may = { λ _ _. Unit {0} };

    ghost changes = { λ c old new. new ≡ marked_at c.at old };

    fn change(&self, leaf: &mut LeafVdev) {
        leaf.marked |= leaf.guid == self.at;
    }
}

#[derive(Drop)]
struct Owe {
    group: Group,
}

impl LeafChange for Owe {
    ghost may = { λ c leaf. (1 ≤ c.group.0) × (c.group.0 ≤ 2 ^ 62) × has_room 1 leaf };

    ghost changes = { λ c old new. Owes c.group.0 old new };

    fn change(&self, leaf: &mut LeafVdev) {
        if !leaf.state.is_up() {
            leaf.log.insert(self.group);
        }
    }
}

/// Does this to each leaf under the vdev.
#[cycle(change)]
fn change_leaves<C: LeafChange>(vdev: &mut Vdev, change: &C)
    requires { All (C.may change.now) (leaves vdev.old) }
    ensures leaves { AllZip (C.changes change.now) (leaves vdev.old) (leaves vdev.new) }
    ensures built { marks vdev.new ≡ marks vdev.old }
    ensures form { form_of vdev.new ≡ form_of vdev.old }
{
    match vdev {
        Vdev::Leaf(leaf) => change.change(leaf),
        Vdev::Inner(inner) => change_children(inner, change),
    }
}

#[cycle(change)]
fn change_children<C: LeafChange>(inner: &mut InnerVdev, change: &C)
    requires { All (C.may change.now) (flat_map leaves inner.old.children.items) }
    ensures leaves { AllZip (C.changes change.now) (flat_map leaves inner.old.children.items) (flat_map leaves inner.new.children.items) }
    ensures built { flat_map marks inner.new.children.items ≡ flat_map marks inner.old.children.items }
    ensures forms { flat_map form_alone inner.new.children.items ≡ flat_map form_alone inner.old.children.items }
    ensures guid { inner.new.guid ≡ inner.old.guid }
    ensures kind { inner.new.kind ≡ inner.old.kind }
{
    let count = inner.children.len();
    for i in 0..count {
        change_leaves(&mut inner.children[i], change);
    }
}

#[cycle(reserve)]
fn reserve_leaves(vdev: &mut Vdev, n: usize) -> Result<(), MemFault>
    ensures room { OnOk result (All (has_room n) (leaves vdev.new)) }
    ensures leaves { AllZip KeepsLog (leaves vdev.old) (leaves vdev.new) }
    ensures built { marks vdev.new ≡ marks vdev.old }
    ensures form { form_of vdev.new ≡ form_of vdev.old }
{
    match vdev {
        Vdev::Leaf(leaf) => reserve_leaf(leaf, n),
        Vdev::Inner(inner) => reserve_children(inner, n),
    }
}

#[cycle(reserve)]
fn reserve_children(inner: &mut InnerVdev, n: usize) -> Result<(), MemFault>
    ensures room { OnOk result (All (has_room n) (flat_map leaves inner.new.children.items)) }
    ensures leaves { AllZip KeepsLog (flat_map leaves inner.old.children.items) (flat_map leaves inner.new.children.items) }
    ensures built { flat_map marks inner.new.children.items ≡ flat_map marks inner.old.children.items }
    ensures forms { flat_map form_alone inner.new.children.items ≡ flat_map form_alone inner.old.children.items }
    ensures guid { inner.new.guid ≡ inner.old.guid }
    ensures kind { inner.new.kind ≡ inner.old.kind }
{
    for i in 0..inner.children.len() {
        reserve_leaves(&mut inner.children[i], n)?;
    }
    Ok(())
}

fn reserve_leaf(leaf: &mut LeafVdev, n: usize) -> Result<(), MemFault>
    ensures room { OnOk result (has_room n leaf.new) }
    ensures keeps { KeepsLog leaf.old leaf.new }
{
    leaf.log.reserve(n)
}
