//! The map of a volume.
ghost use Rattle.std.specs.Prelude.{◌≡◌, ℕ, ◌+◌, ◌*◌, ◌<◌, ◌≤◌, ◌&&◌, not, true, false, length, take, drop, IfOk, IfSome, IfNone};
ghost use Rattle.block_map.specs.Bits.{holds};
ghost use Rattle.block_map.specs.NumberSet.{HasNow, has, room};
ghost use Rattle.mp_base.specs.declared.place.Place.{Place};
ghost use Rattle.mp_base.specs.declared.place.Key.{Key};
ghost use Rattle.block_map.specs.Keys.{IsVolume, IsKey, IsPage, IsBehind};
ghost use Rattle.block_map.specs.Places.{IsPlace, AreTops, is_place};
ghost use Rattle.block_map.specs.Pointers.{hole, IsPointer, IsInForm, written, born_within};
ghost use Rattle.block_map.specs.Pages.{AreInForm};
ghost use Rattle.block_map.specs.Dirty.{dirty_pages};
ghost use Rattle.block_map.specs.Numbers.{place_number};
ghost use Rattle.block_map.specs.Map.{pointer_at, is_free, is_pinned, is_open, IsEmpty, FreeIs, PinnedIs, PointerIs, IsLeastOpen, IsNextKey, CountsPlaces, children};

use crate::bits::Bits;
use crate::dirty::count_above;
use crate::freed::{free_all, places};
use crate::next::{next_born, number_behind};
use crate::number_set::NumberSet;
use crate::numbers::{
    LEVELS, first_child, key_at, key_number, keys_at, place_at, place_number, slots,
};
use mp_base::{Group, Key, MemFault, Place, Pointer};
use std::alloc::Global;
use std::marker::Model;

/// Which pointer each key of a volume has; and of the places on the tops of its pool, which are free, and which are
/// pinned. A place may be given out where it is free and not pinned.
///
/// Nothing but `new` takes memory: for the largest volume on the most and largest tops 18 MB.
#[derive(Drop)]
pub struct BlockMap {
    blocks: u64,
    sectors: Vec<u64>,
    pointers: Vec<Pointer>,
    free: Bits,
    pinned: Bits,
    opened: NumberSet,
}

impl Model for BlockMap {
    ghost use Rattle.block_map.specs.Map.{Map, IsKept};

    ghost Value = { Map };

    ghost view = { λ map. record {
      blocks = map.blocks;
      sectors = map.sectors.items;
      pointers = map.pointers.items;
      free = map.free;
      pinned = map.pinned;
      count = map.opened.count;
    } };

    ghost invariant = { λ map. IsKept map.blocks map.sectors.items map.pointers.items map.free map.pinned map.opened };
}

impl BlockMap {
    /// A map without a key, for a volume of so many blocks over tops with so many sectors each. Every place is free,
    /// and none is pinned.
    pub fn new(alloc: Global, blocks: u64, sectors: &[u64]) -> Result<BlockMap, MemFault>
        requires blocks { IsVolume blocks }
        requires tops { AreTops sectors.now }
        ensures { IfOk result (λ map. IsEmpty blocks sectors.now map) }
    {
        let room = places(sectors);
        let mut free = Bits::new(alloc, room)?;
        let mut opened = NumberSet::new(alloc, room)?;
        free_all(sectors, room, &mut free, &mut opened);
        let pinned = Bits::new(alloc, room)?;
        let pointers = vec![in alloc; Pointer::HOLE; slots(blocks)]?;
        let sectors = Vec::from_slice(alloc, sectors)?;
        Ok(BlockMap {
            blocks,
            sectors,
            pointers,
            free,
            pinned,
            opened,
        })
    }

    /// The number of a place, by which the bitmaps go.
    fn number(&self, place: Place) -> usize
        requires { IsPlace self.now.sectors place }
        ensures value { result ≡ place_number (length self.now.sectors) place }
        ensures inside { result < 64 * length self.now.free }
    {
        place_number(self.sectors.len(), place)
    }

    /// How many blocks the volume has.
    pub fn blocks(&self) -> u64
        ensures blocks { result ≡ self.now.blocks }
        ensures volume { IsVolume result }
    {
        self.blocks
    }

    /// What holds of every map, whatever was done with it. It computes nothing: its clauses are the law.
    pub fn keeps_its_form(&self)
        ensures volume { IsVolume self.now.blocks }
        ensures tops { AreTops self.now.sectors }
        ensures pointers { (key : Key) → IsPointer self.now.sectors (pointer_at self.now key) }
        ensures form { (key : Key) → IsInForm (pointer_at self.now key) }
        ensures counted { CountsPlaces (is_open self.now) self.now.count }
    {
        let _ = self.opened.count();
    }

    /// Whether the key is one of the volume.
    pub fn has_key(&self, key: Key) -> bool
        ensures yes { result ≡ true → IsKey self.now.blocks key }
        ensures no { IsKey self.now.blocks key → result ≡ true }
    {
        if key.level > LEVELS {
            return false;
        }
        key.index < keys_at(self.blocks, key.level)
    }

    /// Whether the place is one of the tops.
    pub fn has_place(&self, place: Place) -> bool
        ensures yes { result ≡ true → IsPlace self.now.sectors place }
        ensures no { IsPlace self.now.sectors place → result ≡ true }
    {
        is_place(&self.sectors, place)
    }

    /// Whether the place is one of the tops and free.
    pub fn is_free(&self, place: Place) -> bool
        ensures { result ≡ is_free self.now place }
    {
        if !is_place(&self.sectors, place) {
            return false;
        }
        self.free.contains(self.number(place))
    }

    /// The pointer of a key; None exactly where it is a hole.
    pub fn get(&self, key: Key) -> Option<Pointer>
        requires { IsKey self.now.blocks key }
        ensures pointer { result ≡ written (pointer_at self.now key) }
        ensures hole { IfNone result (pointer_at self.now key ≡ hole) }
        ensures place { IfSome result (λ pointer. IsPlace self.now.sectors pointer.place) }
    {
        let pointer = self.pointers[key_number(self.blocks, key)];
        if pointer.is_hole() {
            None
        } else {
            Some(pointer)
        }
    }

    /// Gives a key this pointer; with a hole, it has none any more.
    pub fn set(&mut self, key: Key, pointer: Pointer)
        requires key { IsKey self.old.blocks key }
        requires pointer { IsPointer self.old.sectors pointer }
        ensures { PointerIs self.old self.new key pointer }
    {
        let at = key_number(self.blocks, key);
        self.pointers[at] = pointer;
    }

    /// Whether the place may be given out, after its bit in one of the bitmaps changed.
    fn reopen(opened: &mut NumberSet, free: &Bits, pinned: &Bits, at: usize)
        requires free { at < 64 * length free.now }
        requires pinned { at < 64 * length pinned.now }
        requires room { at < room opened.old }
        ensures { HasNow (holds free.now at && not (holds pinned.now at)) opened.old opened.new at }
    {
        opened.set(at, free.contains(at) && !pinned.contains(at));
    }

    /// Takes the least place that is free and not pinned, by sector and then by top; None exactly where there is none.
    pub fn alloc(&mut self) -> Option<Place>
        ensures least { IfSome result (λ place. IsLeastOpen self.old place) }
        ensures taken { IfSome result (λ place. FreeIs false self.old self.new place) }
        ensures none { IfNone result ((place : Place) → is_open self.old place ≡ false) }
        ensures empty { IfNone result (self.old.count ≡ 0) }
        ensures unchanged { IfNone result (self.new ≡ self.old) }
    {
        let at = self.opened.take_least()?;
        self.free.remove(at);
        Some(place_at(self.sectors.len(), at))
    }

    /// Makes a place one that is not free.
    pub fn take_place(&mut self, place: Place)
        requires { IsPlace self.old.sectors place }
        ensures { FreeIs false self.old self.new place }
    {
        let at = self.number(place);
        self.free.remove(at);
        Self::reopen(&mut self.opened, &self.free, &self.pinned, at);
    }

    /// Makes a place free.
    pub fn give_place(&mut self, place: Place)
        requires { IsPlace self.old.sectors place }
        ensures { FreeIs true self.old self.new place }
    {
        let at = self.number(place);
        self.free.insert(at);
        Self::reopen(&mut self.opened, &self.free, &self.pinned, at);
    }

    /// Keeps a place from being given out.
    pub fn pin(&mut self, place: Place)
        requires { IsPlace self.old.sectors place }
        ensures { PinnedIs true self.old self.new place }
    {
        let at = self.number(place);
        self.pinned.insert(at);
        Self::reopen(&mut self.opened, &self.free, &self.pinned, at);
    }

    /// Lets a place be given out again, where it is free.
    pub fn unpin(&mut self, place: Place)
        requires { IsPlace self.old.sectors place }
        ensures { PinnedIs false self.old self.new place }
    {
        let at = self.number(place);
        self.pinned.remove(at);
        Self::reopen(&mut self.opened, &self.free, &self.pinned, at);
    }

    /// How many places are free and not pinned.
    pub fn free_count(&self) -> u64
        ensures count { result ≡ self.now.count }
        ensures places { CountsPlaces (is_open self.now) result }
    {
        self.opened.count() as u64
    }

    /// The first key behind the cursor, by level and then by index, that has a pointer born in a group up to `hi`. None
    /// exactly where there is none.
    pub fn next_key(&self, after: Option<Key>, hi: Group) -> Option<Key>
        requires { IfSome after (λ key. IsKey self.now.blocks key) }
        ensures next { IfSome result (λ key. IsNextKey self.now after hi.0 key) }
        ensures none { IfNone result ((key : Key) → IsBehind after key
            → born_within hi.0 (pointer_at self.now key) ≡ false) }
    {
        let from = number_behind(self.blocks, after);
        let at = next_born(&self.pointers, from, hi)?;
        Some(key_at(self.blocks, at))
    }

    /// How many pages of the map a commit writes besides where the blocks of these addresses, which rise, are dirty:
    /// those above them, on each of the three levels.
    pub fn dirty_pages(&self, addrs: &[u64]) -> u64
        requires { length addrs.now ≤ 262144 }
        ensures { result ≡ dirty_pages addrs.now }
    {
        count_above(1, addrs) + count_above(2, addrs) + count_above(3, addrs)
    }

    /// The pointers of a page, one for each of its 64 keys.
    pub fn children(&self, page: Key) -> &[Pointer]
        requires { IsPage self.now.blocks page }
        ensures pointers { result.now ≡ children (pointer_at self.now) page }
        ensures form { AreInForm result.now }
    {
        page_at(&self.pointers, key_number(self.blocks, first_child(page)))
    }
}

/// Whether there is this top, and the sector is below the number of its sectors.
#[tactic(auto, unfolding(crate::specs::Places::is_place))]
fn is_place(sectors: &[u64], place: Place) -> bool
    ensures { result ≡ is_place sectors.now place }
{
    let top = place.top as usize;
    if top >= sectors.len() {
        return false;
    }
    place.sector < sectors[top]
}

fn page_at(pointers: &[Pointer], first: usize) -> &[Pointer]
    requires { first + 64 ≤ length pointers.now }
    ensures { result.now ≡ take 64 (drop first pointers.now) }
{
    &pointers[first..first + 64]
}
