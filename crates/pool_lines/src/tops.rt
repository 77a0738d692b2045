//! The tops that a line names.
ghost use Rattle.std.specs.Prelude.{◌≡◌, [], ◌∷◌, ◌++◌, OnOk, OnErr};

use mp_base::{MemFault, Name};
use std::alloc::Global;
use std::marker::Model;

/// Names of devices, in the order of the line.
#[derive(Drop)]
pub struct Names {
    names: Vec<Name>,
}

impl Model for Names {
    ghost use Rattle.std.specs.Prelude.{ℕ, List};

    ghost Value = { List (List ℕ) };

    ghost view = { λ n. n.names.items };
}

impl Names {
    pub fn new(alloc: Global) -> Names
        ensures { result ≡ [] }
    {
        Names {
            names: Vec::new(alloc),
        }
    }

    pub fn push(&mut self, name: Name) -> Result<(), MemFault>
        ensures ok { OnOk result (self.new ≡ self.old ++ name ∷ []) }
        ensures err { OnErr result (self.new ≡ self.old) }
    {
        self.names.push(name)?;
        Ok(())
    }

    pub fn as_slice(&self) -> &[Name]
        ensures { result.now ≡ self.now }
    {
        &self.names
    }
}

/// The tops of a pool, in the order of the line, each by the names of its devices. A top of one name is one device alone.
#[derive(Drop)]
pub struct Tops {
    tops: Vec<Names>,
}

impl Model for Tops {
    ghost use Rattle.std.specs.Prelude.{ℕ, List};

    ghost Value = { List (List (List ℕ)) };

    ghost view = { λ t. t.tops.items };
}

impl Tops {
    pub fn new(alloc: Global) -> Tops
        ensures { result ≡ [] }
    {
        Tops {
            tops: Vec::new(alloc),
        }
    }

    pub fn push(&mut self, top: Names) -> Result<(), MemFault>
        ensures ok { OnOk result (self.new ≡ self.old ++ top ∷ []) }
        ensures err { OnErr result (self.new ≡ self.old) }
    {
        self.tops.push(top)?;
        Ok(())
    }

    pub fn as_slice(&self) -> &[Names]
        ensures { result.now ≡ self.now }
    {
        &self.tops
    }
}
