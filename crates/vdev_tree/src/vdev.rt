//! Vdevs: the leaves, and the inner ones that hold others.
ghost use Rattle.std.specs.Prelude.{◌≡◌, ◌+◌, ◌∷◌, [], length, map, slice_get, IfOk, IfErr, IfSome, IfNone, Some};
ghost use Rattle.std.specs.Option.{option_map};
ghost use Rattle.std.specs.List.{find, AllZip};
ghost use Rattle.vdev_tree.specs.Leaf.{is_up, is_online, SameLeaf};
ghost use Rattle.vdev_tree.specs.Tree.{leaves, state_of, state_over, guid_of, is_named, leaf_guid, state_by, IsCopy};

use group_set::GroupSet;
use mp_base::{Guid, MemFault, Name};
use std::alloc::Global;

/// The state of a vdev. A leaf that is ONLINE or DEGRADED is readable, and written to.
#[derive(Clone, Copy, Debug, PartialEq, Eq)]
pub enum State {
    Online,
    Degraded,
    Faulted,
    Offline,
    Removed,
    Unavail,
}

impl State {
    /// Whether a leaf in this state is read and written.
    pub fn is_up(self) -> bool
        ensures { result ≡ is_up self }
    {
        self == State::Online || self == State::Degraded
    }

    fn is_online(self) -> bool
        ensures { result ≡ is_online self }
    {
        self == State::Online
    }
}

/// What an inner vdev is: a mirror, a device that takes over from another one, or a spare that stands in.
#[derive(Clone, Copy, Debug, PartialEq, Eq)]
pub enum Kind {
    Mirror,
    Replacing,
    Spare,
}

/// The failed reads, the failed writes and flushes, and the wrong bytes that a leaf answered.
#[derive(Clone, Copy, Debug, PartialEq, Eq)]
pub struct Counts {
    pub reads: u64,
    pub writes: u64,
    pub mismatches: u64,
}

/// A leaf: a device with its log of the groups of which it lacks a valid copy.
#[derive(Drop)]
pub struct LeafVdev {
    pub guid: Guid,
    pub name: Name,
    /// Its number in the bank, where it has a device.
    pub dev: Option<u32>,
    pub state: State,
    pub log: GroupSet,
    /// The groups that its log has held since the last acknowledged record, or since it was made.
    pub settled: GroupSet,
    /// Marked to come back: a resilver brings its log up to date.
    pub marked: bool,
    /// OFFLINE only until the next opening.
    pub temporary: bool,
    pub counts: Counts,
}

impl LeafVdev {
    /// An equal leaf, whose sets have at least as much room.
    pub fn copy(&self, alloc: Global) -> Result<LeafVdev, MemFault>
        ensures { IfOk result (λ leaf. SameLeaf leaf self.now) }
    {
        Ok(LeafVdev {
            guid: self.guid,
            name: self.name.copy(alloc)?,
            dev: self.dev,
            state: self.state,
            log: self.log.copy()?,
            settled: self.settled.copy()?,
            marked: self.marked,
            temporary: self.temporary,
            counts: self.counts,
        })
    }

    /// Its number, where it has this name.
    fn find(&self, name: &Name) -> Option<Guid>
        ensures { result ≡ option_map leaf_guid (find (is_named name.now) (self.now ∷ [])) }
    {
        if self.name == *name {
            Some(self.guid)
        } else {
            None
        }
    }
}

/// An inner vdev with its children, in their order.
#[cycle(vdev)]
#[derive(Drop)]
pub struct InnerVdev {
    pub guid: Guid,
    pub kind: Kind,
    pub children: Vec<Vdev>,
}

#[cycle(vdev)]
#[derive(Drop)]
pub enum Vdev {
    Leaf(LeafVdev),
    Inner(InnerVdev),
}

#[tactic(auto, using(crate::proofs::Folds::at_vdev))]
impl Vdev {
    /// Its number.
    pub fn guid(&self) -> Guid
        ensures { result ≡ guid_of self.now }
    {
        match self {
            Vdev::Leaf(leaf) => leaf.guid,
            Vdev::Inner(inner) => inner.guid,
        }
    }

    /// A leaf's own state. An inner vdev is UNAVAIL where no child is ONLINE or DEGRADED, DEGRADED where
    /// some child isn't ONLINE, else ONLINE.
    pub fn state(&self) -> State
        ensures { result ≡ state_of self.now }
    {
        match self {
            Vdev::Leaf(leaf) => leaf.state,
            Vdev::Inner(inner) => {
                let mut some_up = false;
                let mut all_online = true;
                for child in &inner.children {
                    let state = child.state();
                    some_up = some_up | state.is_up();
                    all_online = all_online & state.is_online();
                }
                state_over(some_up, all_online)
            }
        }
    }

    /// The number of the leaf of this name, the first in tree order.
    pub fn find(&self, name: &Name) -> Option<Guid>
        ensures { result ≡ option_map leaf_guid (find (is_named name.now) (leaves self.now)) }
    {
        match self {
            Vdev::Leaf(leaf) => leaf.find(name),
            Vdev::Inner(inner) => {
                for child in &inner.children {
                    let found = child.find(name);
                    if found.is_some() {
                        return found;
                    }
                }
                None
            }
        }
    }

    /// The leaf at this place in tree order, or how many places behind the last leaf it is.
    pub(crate) fn leaf_or_rest(&self, place: usize) -> Result<&LeafVdev, usize>
        ensures leaf { IfOk result (λ leaf. slice_get (leaves self.now) place ≡ Some leaf.now) }
        ensures rest { IfErr result (λ rest. place ≡ length (leaves self.now) + rest) }
    {
        match self {
            Vdev::Leaf(leaf) if place == 0 => Ok(leaf),
            Vdev::Leaf(_) => Err(place - 1),
            Vdev::Inner(inner) => {
                let mut rest = place;
                for child in &inner.children {
                    match child.leaf_or_rest(rest) {
                        Ok(leaf) => return Ok(leaf),
                        Err(behind) => rest = behind,
                    }
                }
                Err(rest)
            }
        }
    }

    /// An equal vdev, whose sets have at least as much room.
    pub fn copy(&self, alloc: Global) -> Result<Vdev, MemFault>
        ensures { IfOk result (λ vdev. IsCopy vdev self.now) }
    {
        match self {
            Vdev::Leaf(leaf) => Ok(Vdev::Leaf(leaf.copy(alloc)?)),
            Vdev::Inner(inner) => {
                let mut children = Vec::new(alloc);
                for child in &inner.children {
                    children.push(child.copy(alloc)?)?;
                }
                Ok(Vdev::Inner(InnerVdev {
                    guid: inner.guid,
                    kind: inner.kind,
                    children,
                }))
            }
        }
    }
}

/// The state over children of which some are up, or all ONLINE.
fn state_over(some_up: bool, all_online: bool) -> State
    ensures { result ≡ state_by some_up all_online }
{
    if !some_up {
        State::Unavail
    } else if all_online {
        State::Online
    } else {
        State::Degraded
    }
}
