//! What is gathered of the vdevs of all tops, so that they can be held against each other.
ghost use Rattle.std.specs.Prelude.{◌≡◌, OnOk};
ghost use Rattle.pool_config.specs.Members.{nothing, with_leaf, with_inner};

use mp_base::{Guid, MemFault, Name};
use std::alloc::Global;
use std::marker::Model;

/// The numbers of vdevs, the names of the leaves among them, and how many ranges these leaves' logs have.
#[derive(Drop)]
pub(crate) struct Members {
    numbers: Vec<u64>,
    names: Vec<Name>,
    lengths: Vec<usize>,
}

impl Model for Members {
    ghost use Rattle.pool_config.specs.Members.{Gathered};

    ghost Value = { Gathered };

    ghost view = { λ m. record { numbers = m.numbers.items; names = m.names.items; lengths = m.lengths.items } };
}

impl Members {
    pub(crate) fn new(alloc: Global) -> Members
        ensures { result ≡ nothing }
    {
        Members {
            numbers: Vec::new(alloc),
            names: Vec::new(alloc),
            lengths: Vec::new(alloc),
        }
    }

    pub(crate) fn add_leaf(
        &mut self,
        alloc: Global,
        guid: Guid,
        name: &Name,
        ranges: usize,
    ) -> Result<(), MemFault>
        ensures { OnOk result (self.new ≡ with_leaf self.old guid.0 name.now ranges) }
    {
        self.numbers.push(guid.0)?;
        self.names.push(name.copy(alloc)?)?;
        self.lengths.push(ranges)?;
        Ok(())
    }

    pub(crate) fn add_inner(&mut self, guid: Guid) -> Result<(), MemFault>
        ensures { OnOk result (self.new ≡ with_inner self.old guid.0) }
    {
        self.numbers.push(guid.0)?;
        Ok(())
    }

    pub(crate) fn numbers(&self) -> &[u64]
        ensures { result.now ≡ self.now.numbers }
    {
        &self.numbers
    }

    pub(crate) fn names(&self) -> &[Name]
        ensures { result.now ≡ self.now.names }
    {
        &self.names
    }

    pub(crate) fn lengths(&self) -> &[usize]
        ensures { result.now ≡ self.now.lengths }
    {
        &self.lengths
    }
}
