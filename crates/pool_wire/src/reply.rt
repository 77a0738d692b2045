//! The reply to a line.
ghost use Rattle.std.specs.Prelude.{◌≡◌, [], ◌∷◌, ◌++◌, OnOk, OnErr};

use mp_base::{Block, Group, MemFault, Name, Ranges, Refusal, Seen};
use std::alloc::Global;
use std::marker::Model;
use vdev_tree::State;

/// The reply to a line (docs/FORMATS.md, "Replies").
#[derive(Drop)]
pub enum Reply {
    /// `ok`
    Done,
    /// `ok N`: the number of the group that is committed.
    Committed(Group),
    /// `ok DATA`: a block.
    Data(Block),
    /// `ok STATE`: the state that a device has now.
    State(State),
    /// `ok`, and `NAME=LOG` for each leaf: the groups that it lacks.
    Logs(LeafLogs),
    /// `no ..`: why the line was refused.
    Refused(Refusal),
    /// `no 15 exhausted LEVEL INDEX LEAVES`: the refusal 15 with the names of the leaves, which the
    /// refusal itself knows by their member numbers.
    Exhausted {
        level: u32,
        index: u64,
        leaves: NamedLeaves,
    },
    /// `no 17 fault DEV`: the refusal 17 with the device's name, where the refusal itself knows the member's number.
    DeviceFault {
        name: Name,
    },
    /// `no 18 label DEV`: the refusal 18 with the device's name, where the refusal itself knows the member's number.
    WrongLabel {
        name: Name,
    },
    /// `no 26 nodevice DEV`: the host has no device of this name.
    NoDevice {
        name: Name,
    },
}

/// A leaf by its name, and what a read saw of it.
#[derive(Drop)]
pub struct NamedLeaf {
    pub name: Name,
    pub seen: Seen,
}

/// The leaves of one top in tree order, each with what was seen of it.
#[derive(Drop)]
pub struct NamedLeaves {
    leaves: Vec<NamedLeaf>,
}

impl Model for NamedLeaves {
    ghost use Rattle.std.specs.Prelude.{List};
    ghost use Rattle.pool_wire.specs.declared.reply.NamedLeaf.{NamedLeaf};

    ghost Value = { List NamedLeaf };

    ghost view = { λ leaves. leaves.leaves.items };
}

impl NamedLeaves {
    pub fn new(alloc: Global) -> NamedLeaves
        ensures { result ≡ [] }
    {
        NamedLeaves {
            leaves: Vec::new(alloc),
        }
    }

    pub fn push(&mut self, leaf: NamedLeaf) -> Result<(), MemFault>
        ensures ok { OnOk result (self.new ≡ self.old ++ leaf ∷ []) }
        ensures err { OnErr result (self.new ≡ self.old) }
    {
        self.leaves.push(leaf)?;
        Ok(())
    }

    pub fn as_slice(&self) -> &[NamedLeaf]
        ensures { result.now ≡ self.now }
    {
        &self.leaves
    }
}

/// A leaf by its name, and its log: the ranges of groups that it lacks.
#[derive(Drop)]
pub struct LeafLog {
    pub name: Name,
    pub log: Ranges,
}

/// The leaves of a pool in tree order, each with its log.
#[derive(Drop)]
pub struct LeafLogs {
    leaves: Vec<LeafLog>,
}

impl Model for LeafLogs {
    ghost use Rattle.std.specs.Prelude.{List};
    ghost use Rattle.pool_wire.specs.declared.reply.LeafLog.{LeafLog};

    ghost Value = { List LeafLog };

    ghost view = { λ leaves. leaves.leaves.items };
}

impl LeafLogs {
    pub fn new(alloc: Global) -> LeafLogs
        ensures { result ≡ [] }
    {
        LeafLogs {
            leaves: Vec::new(alloc),
        }
    }

    pub fn push(&mut self, leaf: LeafLog) -> Result<(), MemFault>
        ensures ok { OnOk result (self.new ≡ self.old ++ leaf ∷ []) }
        ensures err { OnErr result (self.new ≡ self.old) }
    {
        self.leaves.push(leaf)?;
        Ok(())
    }

    pub fn as_slice(&self) -> &[LeafLog]
        ensures { result.now ≡ self.now }
    {
        &self.leaves
    }
}
