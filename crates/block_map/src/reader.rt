//! The reading of a whole map, page by page.
ghost use Rattle.std.specs.Prelude.{◌≡◌, ◌≢◌, ℕ, ◌^◌, ◌<◌, ◌≤◌, true, false, List, length, slice_index_or, Option};
ghost use Rattle.std.specs.Prelude.{Some, None, IfOk, IfSome, IsSome, ◌==◌, if◌then◌else◌};
ghost use Rattle.mp_base.specs.declared.place.Key.{Key};
ghost use Rattle.mp_base.specs.declared.place.Place.{Place};
ghost use Rattle.mp_base.specs.declared.place.Pointer.{Pointer};
ghost use Rattle.block_map.specs.Keys.{IsVolume, IsKey, IsPage, root, child};
ghost use Rattle.block_map.specs.Places.{AreTops};
ghost use Rattle.block_map.specs.Pointers.{hole, IsPointer};
ghost use Rattle.block_map.specs.Pages.{page_bytes, AreInForm};
ghost use Rattle.block_map.specs.Map.{pointer_at};
ghost use Rattle.block_map.specs.Reading.{IsWritten, MayStand, MayBeRead, AreRead, IsRead, NextPage, NamesPlaces, HasHolesBelow};
ghost use Rattle.block_map.specs.Reading.{IsPut, IsNamedFirst, BeginsReading, RecordedMap, FindsPage, IsReadFrom, IsReadBack};

use crate::map::BlockMap;
use crate::next_page::next_page;
use crate::numbers::{FANOUT, keys_at};
use crate::page::read_page;
use mp_base::{Group, Key, MemFault, Place, Pointer};
use std::alloc::Global;
use std::marker::Model;

/// The page over all others.
const ROOT: Key = Key { level: 3, index: 0 };

/// The reading of the map of a record from the bytes of its pages, which are handed in one by one, in the order in
/// which an opening reads them: from level 3 down to level 1, and on each level by rising index. A page that is a hole
/// isn't read. Which bytes a caller found of each page it says itself: the clauses `from` follow it page by page
/// (`IsReadFrom`), and at the end each stored page has just the pointers of its bytes (`IsReadBack`).
#[derive(Drop)]
pub struct MapReader {
    map: BlockMap,
    number: Group,
    next: Option<Key>,
}

impl Model for MapReader {
    ghost use Rattle.block_map.specs.Reading.{Reading, IsReading};

    ghost Value = { Reading };

    ghost view = { λ reader. record { map = reader.map; number = reader.number.0; next = reader.next } };

    ghost invariant = { λ reader. IsReading reader.map reader.number.0 reader.next };
}

impl MapReader {
    /// Begins to read the map of a record of this number, with so many blocks over tops with so many sectors each,
    /// whose root page has this pointer.
    pub fn new(
        alloc: Global,
        blocks: u64,
        sectors: &[u64],
        number: Group,
        root: Pointer,
    ) -> Result<MapReader, MemFault>
        requires blocks { IsVolume blocks }
        requires tops { AreTops sectors.now }
        requires pointer { IsPointer sectors.now root }
        requires born { root.birth.0 ≤ number.0 }
        ensures begun { IfOk result (λ reader. BeginsReading blocks sectors.now number.0 root reader) }
        ensures places { IfOk result (λ reader. NamesPlaces reader.map) }
        ensures from { IfOk result (λ reader. (found : Key → Option (List ℕ)) → IsReadFrom (record {
          blocks = blocks;
          sectors = sectors.now;
          number = number.0;
          pointer = root;
        }) found reader) }
    {
        let mut map = BlockMap::new(alloc, blocks, sectors)?;
        put(&mut map, ROOT, root);
        Ok(MapReader {
            map,
            number,
            next: first_page(&root),
        })
    }

    /// The page to read next, with its pointer. None where every page is read.
    pub fn next_page(&self) -> Option<(Key, Pointer)>
        ensures page { IfSome result (λ page. (self.now.next ≡ Some page.0)
            × (page.1 ≡ pointer_at self.now.map page.0)) }
        ensures stored { IfSome result (λ page. IsWritten page.1) }
        ensures none { result ≡ None → self.now.next ≡ None }
    {
        let page = self.next?;
        let pointer = self.map.get(page)?;
        Some((page, pointer))
    }

    /// Reads the next page, whose bytes these are. False exactly where they are no page that may stand there; nothing
    /// changes then, so that another copy may be tried.
    pub fn read_page(&mut self, bytes: &[u8]) -> bool
        requires bytes { length bytes.now ≡ 4096 }
        requires next { IsSome self.old.next }
        ensures read { result ≡ true → IfSome self.old.next (λ page. IsRead self.old self.new page bytes.now) }
        ensures places { NamesPlaces self.new.map }
        ensures stays { (key : Key) → IsWritten (pointer_at self.old.map key)
            → pointer_at self.new.map key ≡ pointer_at self.old.map key }
        ensures from { result ≡ true → IfSome self.old.next (λ page. (recorded : RecordedMap)
            (before after : Key → Option (List ℕ)) → IsReadFrom recorded before self.old
            → FindsPage before after page bytes.now → IsReadFrom recorded after self.new) }
        ensures unchanged { result ≡ false → self.new ≡ self.old }
        ensures wrong { result ≡ false → IfSome self.old.next (λ page. (pointers : List Pointer) → AreInForm pointers
            → bytes.now ≡ page_bytes pointers → MayBeRead self.old.map self.old.number page pointers → ⊥) }
    {
        let Some(page) = self.next else {
            return false;
        };
        let mut pointers = [Pointer::HOLE; 64];
        if !read_page(bytes, &mut pointers) {
            return false;
        }
        if !may_be_read(&self.map, self.number, page, &pointers) {
            return false;
        }
        put_all(&mut self.map, page, &pointers);
        self.next = next_page(&self.map, page);
        true
    }

    /// The map, once every page is read: no birth is above the record's number, below a hole are holes, and each stored
    /// page has the pointers of the bytes that were found of it.
    pub fn finish(self) -> BlockMap
        requires { self.next ≡ None }
        ensures map { result ≡ self.map }
        ensures places { NamesPlaces result }
        ensures born { (key : Key) → (pointer_at result key).birth.0 ≤ self.number }
        ensures holes { HasHolesBelow result }
        ensures back { (recorded : RecordedMap) (found : Key → Option (List ℕ)) → IsReadFrom recorded found self
            → IsReadBack recorded found result }
    {
        self.map
    }
}

/// The page that is read first, where the root has this pointer.
fn first_page(pointer: &Pointer) -> Option<Key>
    ensures { result ≡ (if pointer.now.birth.0 == 0 then None else Some root) }
{
    if pointer.is_hole() { None } else { Some(ROOT) }
}

/// Gives a key that is a hole this pointer, and uses its place.
fn put(map: &mut BlockMap, key: Key, pointer: Pointer)
    requires pointer { IsPointer map.old.sectors pointer }
    requires key { IsWritten pointer → IsKey map.old.blocks key }
    requires hole { pointer_at map.old key ≡ hole }
    ensures { IsPut map.old map.new key pointer }
{
    if pointer.is_hole() {
        return;
    }
    map.set(key, pointer);
    map.take_place(pointer.place);
}

/// Puts the pointers of a page whose keys are holes.
fn put_all(map: &mut BlockMap, page: Key, pointers: &[Pointer])
    requires pointers { length pointers.now ≡ 64 }
    requires volume { IsVolume map.old.blocks }
    requires page { IsPage map.old.blocks page }
    requires each { (j : ℕ) → j < 64 → IsPointer map.old.sectors (slice_index_or pointers.now j hole) }
    requires keys { (j : ℕ) → j < 64 → IsWritten (slice_index_or pointers.now j hole)
        → IsKey map.old.blocks (child page j) }
    requires holes { (j : ℕ) → j < 64 → pointer_at map.old (child page j) ≡ hole }
    ensures { AreRead map.old map.new page pointers.now 64 }
{
    for j in 0..64 {
        put(map, child(page, j), pointers[j]);
    }
}

/// The key of the page's pointer of this number.
fn child(page: Key, j: usize) -> Key
    requires level { 1 ≤ page.level }
    requires page { page.index < 2 ^ 32 }
    requires number { j < 64 }
    ensures { result ≡ child page j }
{
    Key {
        level: page.level - 1,
        index: FANOUT * page.index + j as u64,
    }
}

/// Whether these are the pointers of a page that may be read now.
fn may_be_read(map: &BlockMap, number: Group, page: Key, pointers: &[Pointer]) -> bool
    requires pointers { length pointers.now ≡ 64 }
    requires volume { IsVolume map.now.blocks }
    requires page { IsPage map.now.blocks page }
    ensures yes { result ≡ true → MayBeRead map.now number.0 page pointers.now }
    ensures no { MayBeRead map.now number.0 page pointers.now → result ≡ true }
{
    let mut some = false;
    for j in 0..64 {
        if !may_stand(map, number, page, pointers, j) {
            return false;
        }
        some |= !pointers[j].is_hole();
    }
    some
}

/// Whether a page's pointer of this number may stand there.
fn may_stand(map: &BlockMap, number: Group, page: Key, pointers: &[Pointer], j: usize) -> bool
    requires pointers { length pointers.now ≡ 64 }
    requires volume { IsVolume map.now.blocks }
    requires page { IsPage map.now.blocks page }
    requires number { j < 64 }
    ensures yes { result ≡ true → MayStand map.now number.0 page pointers.now j }
    ensures no { MayStand map.now number.0 page pointers.now j → result ≡ true }
{
    let pointer = pointers[j];
    if pointer.is_hole() {
        return is_blank(&pointer);
    }
    if pointer.birth.0 > number.0 {
        return false;
    }
    let key = child(page, j);
    if key.index >= keys_at(map.blocks(), key.level) {
        return false;
    }
    map.is_free(pointer.place) && is_named_first(pointers, j)
}

/// Whether a pointer is a hole and has zeros alone.
fn is_blank(pointer: &Pointer) -> bool
    ensures yes { result ≡ true → pointer.now ≡ hole }
    ensures no { pointer.now ≡ hole → result ≡ true }
{
    *pointer == Pointer::HOLE
}

/// Whether no earlier pointer names the place of this one.
fn is_named_first(pointers: &[Pointer], j: usize) -> bool
    requires inside { j < length pointers.now }
    ensures yes { result ≡ true → IsNamedFirst pointers.now j }
    ensures no { IsNamedFirst pointers.now j → result ≡ true }
{
    for i in 0..j {
        if names(&pointers[i], pointers[j].place) {
            return false;
        }
    }
    true
}

fn names(pointer: &Pointer, place: Place) -> bool
    ensures yes { result ≡ true → IsWritten pointer.now × (pointer.now.place ≡ place) }
    ensures no { IsWritten pointer.now → pointer.now.place ≡ place → result ≡ true }
{
    !pointer.is_hole() && pointer.place == place
}
