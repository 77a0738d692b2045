//! What a line may be refused for. A refusal holds no memory, so each call can give one.
ghost use Rattle.std.specs.Prelude.{◌≡◌, ◌==◌, ◌<◌, ◌∷◌, ◌++◌, [], length};

use crate::{Group, Guid};
use std::marker::Model;

/// Why a line was refused; the number beside each is the one in its reply (docs/FORMATS.md, "Replies").
#[derive(Drop)]
pub enum Refusal {
    /// 2: no open pool has the name.
    NoPool,
    /// 3: the address isn't below the volume's number of blocks, or BLOCKS of `create` isn't 1 to this limit.
    BadAddress {
        limit: u64,
    },
    /// 6: no leaf of the pool has the name.
    NoVdev,
    /// 7: nothing of this kind may be done at this place of a tree.
    WrongPlace {
        rule: PlaceRule,
    },
    /// 8: without the device this group could be read from no leaf of its top, and it is the least such group.
    Required {
        group: Group,
    },
    /// 10: the device needs so many sectors, and has fewer.
    TooSmall {
        need: u64,
        has: u64,
    },
    /// 15: no leaf of the top has the bytes of this key, each by what was seen of it.
    Exhausted {
        level: u32,
        index: u64,
        leaves: SeenLeaves,
    },
    /// 16: no leaf of this top could be written for the group, after so many failed calls.
    Suspended {
        group: Group,
        top: Guid,
        faults: u64,
    },
    /// 17: a call on this member's device failed while it was stamped or committed, or its identity was looked for.
    DeviceFault {
        member: Guid,
    },
    /// 18: every ring of this member's device was read, and none says that it is the member's.
    WrongLabel {
        member: Guid,
    },
    /// 19: there was no memory.
    Memory,
    /// 21: no device has a verified record of the name.
    NoRecord,
    /// 22: a limit would be passed; this count would have been reached.
    TreeFull {
        limit: u64,
        count: u64,
    },
    /// 40: this form of line, or this case of it, isn't built yet.
    NotBuilt,
}

/// Which rule on places forbids it.
#[derive(Clone, Copy, Debug, PartialEq, Eq)]
pub enum PlaceRule {
    /// Leaves that stand as this one does take no such change.
    Role,
    /// The device is a listed spare that stands in no tree, or a spare leaf.
    Spare,
    /// The name stands twice.
    Twice,
    /// The device isn't a spare device.
    NotSpare,
}

/// What a read saw of a leaf whose copy didn't serve.
#[derive(Clone, Copy, Debug, PartialEq, Eq)]
pub enum Seen {
    /// It is away or faulted, and wasn't asked.
    Unreadable,
    /// Its read failed.
    Failed,
    /// It answered other bytes than the block's.
    Mismatch,
}

/// A leaf by its member number, and what was seen of it.
#[derive(Clone, Copy, Debug, PartialEq, Eq)]
pub struct LeafSeen {
    pub member: Guid,
    pub seen: Seen,
}

/// The leaves of one top in tree order, each with what was seen of it: at most 32.
#[derive(Drop)]
pub struct SeenLeaves {
    leaves: [LeafSeen; 32],
    len: usize,
}

impl Model for SeenLeaves {
    ghost use Rattle.std.specs.Prelude.{◌≡◌, ◌≤◌, List, length, take};
    ghost use Rattle.mp_base.specs.declared.refusal.LeafSeen.{LeafSeen};

    ghost Value = { List LeafSeen };

    ghost view = { λ s. take s.len s.leaves };

    ghost invariant = { λ s. (s.len ≤ 32) × (length s.leaves ≡ 32) };
}

impl SeenLeaves {
    pub fn new() -> SeenLeaves
        ensures { result ≡ [] }
    {
        let none = LeafSeen {
            member: Guid(0),
            seen: Seen::Unreadable,
        };
        SeenLeaves {
            leaves: [none; 32],
            len: 0,
        }
    }

    pub fn push(&mut self, leaf: LeafSeen)
        requires { length self.old < 32 }
        ensures { self.new ≡ self.old ++ leaf ∷ [] }
    {
        self.leaves[self.len] = leaf;
        self.len += 1;
    }

    pub fn len(&self) -> usize
        ensures { result ≡ length self.now }
    {
        self.len
    }

    pub fn is_empty(&self) -> bool
        ensures { result ≡ (length self.now == 0) }
    {
        self.len == 0
    }

    pub fn as_slice(&self) -> &[LeafSeen]
        ensures { result.now ≡ self.now }
    {
        &self.leaves[..self.len]
    }
}
