//! Places that stay pinned.
ghost use Rattle.std.specs.Prelude.{◌≡◌, ◌+◌, ◌<◌, ◌≤◌, ◌∷◌, ◌++◌, [], length, OnOk};

use mp_base::{MemFault, Place};
use std::alloc::Global;
use std::marker::Model;

/// The places of suspended groups of which a round had begun. A crash may yet leave the record of such a round, so
/// these places stay pinned until the next record is acknowledged.
#[derive(Drop)]
pub struct Pins {
    pub(crate) places: Vec<Place>,
}

impl Model for Pins {
    ghost use Rattle.std.specs.Vec.{vec_capacity};
    ghost use Rattle.txg_engine.specs.Pins.{PinsSeen};

    ghost Value = { PinsSeen };

    ghost view = { λ pins. record { places = pins.places.items; room = vec_capacity pins.places } };
}

impl Pins {
    /// None.
    pub fn new(alloc: Global) -> Pins
        ensures { result.places ≡ [] }
    {
        Pins {
            places: Vec::new(alloc),
        }
    }

    /// Makes room for so many further places.
    pub(crate) fn reserve(&mut self, count: usize) -> Result<(), MemFault>
        ensures places { self.new.places ≡ self.old.places }
        ensures room { OnOk result (length self.new.places + count ≤ self.new.room) }
    {
        self.places.reserve(count)?;
        Ok(())
    }

    /// One more, for which there is room.
    pub(crate) fn push(&mut self, place: Place)
        requires { length self.old.places < self.old.room }
        ensures places { self.new.places ≡ self.old.places ++ place ∷ [] }
        ensures room { self.old.room ≤ self.new.room }
    {
        let _ = self.places.push(place);
    }
}
