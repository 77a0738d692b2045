//! What a reply tells of leaves.
ghost use Rattle.std.specs.Prelude.{◌≡◌, [], ◌∷◌, ◌++◌, OnOk, OnErr};

use mp_base::{MemFault, Name, Ranges, Seen};
use std::alloc::Global;
use std::marker::Model;

/// A leaf by its name, and what a read saw of it.
#[derive(Drop)]
pub struct NamedLeaf {
    pub name: Name,
    pub seen: Seen,
}

/// The leaves of one top in tree order, each with what was seen of it.
#[derive(Drop)]
pub struct NamedLeaves {
    leaves: Vec<NamedLeaf>,
}

impl Model for NamedLeaves {
    ghost use Rattle.std.specs.Prelude.{List};
    ghost use Rattle.pool_lines.specs.declared.leaves.NamedLeaf.{NamedLeaf};

    ghost Value = { List NamedLeaf };

    ghost view = { λ leaves. leaves.leaves.items };
}

impl NamedLeaves {
    pub fn new(alloc: Global) -> NamedLeaves
        ensures { result ≡ [] }
    {
        NamedLeaves {
            leaves: Vec::new(alloc),
        }
    }

    pub fn push(&mut self, leaf: NamedLeaf) -> Result<(), MemFault>
        ensures ok { OnOk result (self.new ≡ self.old ++ leaf ∷ []) }
        ensures err { OnErr result (self.new ≡ self.old) }
    {
        self.leaves.push(leaf)?;
        Ok(())
    }

    pub fn as_slice(&self) -> &[NamedLeaf]
        ensures { result.now ≡ self.now }
    {
        &self.leaves
    }
}

/// A leaf by its name, and its log: the ranges of groups that it lacks.
#[derive(Drop)]
pub struct LeafLog {
    pub name: Name,
    pub log: Ranges,
}

/// The leaves of a pool in tree order, each with its log.
#[derive(Drop)]
pub struct LeafLogs {
    leaves: Vec<LeafLog>,
}

impl Model for LeafLogs {
    ghost use Rattle.std.specs.Prelude.{List};
    ghost use Rattle.pool_lines.specs.declared.leaves.LeafLog.{LeafLog};

    ghost Value = { List LeafLog };

    ghost view = { λ leaves. leaves.leaves.items };
}

impl LeafLogs {
    pub fn new(alloc: Global) -> LeafLogs
        ensures { result ≡ [] }
    {
        LeafLogs {
            leaves: Vec::new(alloc),
        }
    }

    pub fn push(&mut self, leaf: LeafLog) -> Result<(), MemFault>
        ensures ok { OnOk result (self.new ≡ self.old ++ leaf ∷ []) }
        ensures err { OnErr result (self.new ≡ self.old) }
    {
        self.leaves.push(leaf)?;
        Ok(())
    }

    pub fn as_slice(&self) -> &[LeafLog]
        ensures { result.now ≡ self.now }
    {
        &self.leaves
    }
}
