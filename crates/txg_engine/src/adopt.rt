//! What an acknowledged record does to the map.
ghost use Rattle.std.specs.Prelude.{◌≡◌, ◌≤◌, true, [], All};
ghost use Rattle.block_map.specs.Keys.{IsKey};
ghost use Rattle.block_map.specs.Places.{IsPlace};
ghost use Rattle.block_map.specs.Pointers.{IsPointer};
ghost use Rattle.txg_engine.specs.Ending.{IsAdopted, LaysOne, Unpins};

use crate::frozen::Frozen;
use crate::item::Item;
use crate::pins::Pins;
use block_map::BlockMap;
use mp_base::Place;

impl Frozen {
    /// The map is that of the group's record from now on, which was acknowledged: each key of the group has its new
    /// pointer, the place of its old one is free, and none of `pins` is pinned any more.
    pub fn adopt(self, map: &mut BlockMap, pins: &mut Pins)
        requires acked { self.acked ≡ true }
        requires keys { All (λ item. IsKey map.old.blocks item.key) self.items }
        requires pointers { All (λ item. IsPointer map.old.sectors item.pointer) self.items }
        requires pins { All (IsPlace map.old.sectors) pins.old.places }
        ensures map { IsAdopted self.items pins.old.places map.old map.new }
        ensures pins { pins.new.places ≡ [] }
        ensures room { pins.old.room ≤ pins.new.room }
    {
        for item in &self.items {
            lay(map, item);
        }
        unpin_all(map, &pins.places);
        pins.places.clear();
    }
}

// Gives a key its new pointer, and frees the place of the old one.
fn lay(map: &mut BlockMap, item: &Item)
    requires key { IsKey map.old.blocks item.now.key }
    requires pointer { IsPointer map.old.sectors item.now.pointer }
    ensures { LaysOne item.now map.old map.new }
{
    if let Some(old) = map.get(item.key) {
        map.give_place(old.place);
    }
    map.set(item.key, item.pointer);
}

fn unpin_all(map: &mut BlockMap, places: &[Place])
    requires { All (IsPlace map.old.sectors) places.now }
    ensures { Unpins places.now map.old map.new }
{
    for place in places {
        map.unpin(*place);
    }
}
