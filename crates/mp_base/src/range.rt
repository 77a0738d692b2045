//! Ranges of groups, as they are written down and shown.
ghost use Rattle.std.specs.Prelude.{◌≡◌, ◌∷◌, ◌++◌, [], OnOk, OnErr};

use crate::{Group, MemFault};
use std::alloc::Global;
use std::marker::Model;

/// The groups from `low` to `high`, both included.
#[derive(Clone, Copy, Debug, PartialEq, Eq)]
pub struct GroupRange {
    pub low: Group,
    pub high: Group,
}

/// Ranges of groups, one after another.
#[derive(Drop)]
pub struct Ranges {
    ranges: Vec<GroupRange>,
}

impl Model for Ranges {
    ghost use Rattle.std.specs.Prelude.{List};
    ghost use Rattle.mp_base.specs.declared.range.GroupRange.{GroupRange};

    ghost Value = { List GroupRange };

    ghost view = { λ ranges. ranges.ranges.items };
}

impl Ranges {
    pub fn new(alloc: Global) -> Ranges
        ensures { result ≡ [] }
    {
        Ranges {
            ranges: Vec::new(alloc),
        }
    }

    pub fn push(&mut self, range: GroupRange) -> Result<(), MemFault>
        ensures ok { OnOk result (self.new ≡ self.old ++ range ∷ []) }
        ensures err { OnErr result (self.new ≡ self.old) }
    {
        self.ranges.push(range)?;
        Ok(())
    }

    pub fn as_slice(&self) -> &[GroupRange]
        ensures { result.now ≡ self.now }
    {
        &self.ranges
    }
}
