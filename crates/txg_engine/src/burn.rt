//! Burning: a suspended group becomes open again.
ghost use Rattle.std.specs.Prelude.{◌≡◌, ◌+◌, ◌<◌, ◌≤◌, ◌∷◌, true, false, [], length, All};
ghost use Rattle.std.specs.List.{AllZip};
ghost use Rattle.block_map.specs.Places.{IsPlace};
ghost use Rattle.dtl_rules.specs.Widening.{leaves_of, marks_of, sectors_of};
ghost use Rattle.txg_engine.specs.Ending.{AreMerged, fresh_count, GivesBack, pins_after};
ghost use Rattle.txg_engine.specs.Items.{places_of};
ghost use Rattle.txg_engine.specs.Logs.{IsCut};
ghost use Rattle.txg_engine.specs.Turns.{is_suspended, numbers_of};

use crate::changes::cut_all;
use crate::frozen::Frozen;
use crate::item::Item;
use crate::merge::merge;
use crate::open::Open;
use crate::pins::Pins;
use block_map::BlockMap;
use mp_base::Place;
use std::collections::VecDeque;
use vdev_tree::Top;

impl Frozen {
    /// Ends a suspended group. Its writes stand in the open group again, where newer ones win, its numbers leave every
    /// log and what is settled, and its places are free. Where one of its rounds had begun, a crash may leave that
    /// round's record, so the places stay pinned until the next record is acknowledged. It takes no memory.
    pub fn burn(self, newer: Open, map: &mut BlockMap, tops: &mut [Top], pins: &mut Pins) -> Open
        requires unacked { self.acked ≡ false }
        requires suspended { is_suspended (numbers_of tops.old) self ≡ true }
        requires places { All (λ item. IsPlace map.old.sectors item.pointer.place) self.items }
        requires room { length newer.writes ≤ 4096 }
        requires pins_room { length pins.old.places + length self.items ≤ pins.old.room }
        ensures writes { AreMerged self.items newer.writes result.writes }
        ensures count { length result.writes ≡ length newer.writes + fresh_count newer.writes self.items }
        ensures room { 4096 ≤ result.room }
        ensures places { GivesBack self.begun (places_of self.items) map.old map.new }
        ensures pins { pins.new.places ≡ pins_after self.begun (places_of self.items) pins.old.places }
        ensures logs { AllZip (IsCut self.numbers.first.0) (leaves_of tops.old) (leaves_of tops.new) }
        ensures built { marks_of tops.new ≡ marks_of tops.old }
        ensures sectors { sectors_of tops.new ≡ sectors_of tops.old }
    {
        let Frozen {
            numbers,
            items,
            begun,
            back,
            written: _,
            flushed: _,
            acked: _,
            board: _,
        } = self;
        give_back(map, &items, begun, pins);
        cut_all(tops, numbers.first);
        let mut writes = back;
        merge(
            VecDeque::from_vec(items),
            VecDeque::from_vec(newer.writes),
            &mut writes,
        );
        Open { writes }
    }
}

// Frees the places of these keys, and pins them where a round had begun.
fn give_back(map: &mut BlockMap, items: &[Item], begun: bool, pins: &mut Pins)
    requires places { All (λ item. IsPlace map.old.sectors item.pointer.place) items.now }
    requires room { length pins.old.places + length items.now ≤ pins.old.room }
    ensures places { GivesBack begun (places_of items.now) map.old map.new }
    ensures pins { pins.new.places ≡ pins_after begun (places_of items.now) pins.old.places }
{
    for item in items {
        give_one(map, item.pointer.place, begun, pins);
    }
}

fn give_one(map: &mut BlockMap, place: Place, begun: bool, pins: &mut Pins)
    requires place { IsPlace map.old.sectors place }
    requires room { length pins.old.places < pins.old.room }
    ensures place { GivesBack begun (place ∷ []) map.old map.new }
    ensures pins { pins.new.places ≡ pins_after begun (place ∷ []) pins.old.places }
    ensures room { pins.old.room ≤ pins.new.room }
{
    map.give_place(place);
    if !begun {
        return;
    }
    map.pin(place);
    pins.push(place);
}
