//! Frozen groups.
ghost use Rattle.std.specs.Prelude.{◌≡◌, ◌≢◌, ℕ, ◌<◌, ◌≤◌, ◌==◌, true, [], length, nat_le, All, IfSome, IfNone};
ghost use Rattle.std.specs.Option.{option_copied};
ghost use Rattle.block_map.specs.Map.{pointer_at};
ghost use Rattle.block_map.specs.Keys.{root};
ghost use Rattle.mp_base.specs.declared.place.Pointer.{Pointer};
ghost use Rattle.txg_engine.specs.Items.{laid, frozen_block, IsItemAt};
ghost use Rattle.txg_engine.specs.Frozen.{is_written_out, IsGroup, KeysRise};

use crate::board::Board;
use crate::item::Item;
use crate::seat::Numbers;
use crate::write::Write;
use block_map::BlockMap;
use mp_base::{Group, Key, Pointer};
use std::marker::Model;

/// The page over all others.
const ROOT: Key = Key { level: 3, index: 0 };

/// A group whose writes have their places, with the pages above them, and which is on its way to the devices of its board:
/// by a write turn for each key, then the flush turn, then rounds. It has all memory of its commit, so no turn takes any.
#[derive(Drop)]
pub struct Frozen {
    pub(crate) numbers: Numbers,
    /// Its keys, blocks first, and then pages by rising levels, each level by rising index.
    pub(crate) items: Vec<Item>,
    /// How many of them were written.
    pub(crate) written: usize,
    pub(crate) flushed: bool,
    /// One of its rounds has begun.
    pub(crate) begun: bool,
    /// One of its rounds was acknowledged.
    pub(crate) acked: bool,
    pub(crate) board: Board,
    /// Room for the writes of the open group that it becomes where it is suspended.
    pub(crate) back: Vec<Write>,
}

impl Model for Frozen {
    ghost use Rattle.std.specs.Prelude.{◌≡◌, []};
    ghost use Rattle.std.specs.Vec.{vec_capacity};
    ghost use Rattle.txg_engine.specs.Frozen.{FrozenGroup, IsGroup};

    ghost Value = { FrozenGroup };

    ghost view = { λ group. record {
      numbers = group.numbers;
      items = group.items.items;
      written = group.written;
      flushed = group.flushed;
      begun = group.begun;
      acked = group.acked;
      board = group.board;
      room = vec_capacity group.back;
    } };

    ghost invariant = { λ group. IsGroup (record {
      numbers = group.numbers;
      items = group.items.items;
      written = group.written;
      flushed = group.flushed;
      begun = group.begun;
      acked = group.acked;
      board = group.board;
      room = vec_capacity group.back;
    }) × (group.back.items ≡ []) };
}

impl Frozen {
    /// What holds of each frozen group, whatever was done with it. It computes nothing: its clause is the law.
    pub fn keeps_its_form(&self)
        ensures { IsGroup self.now }
    {
        let _ = &self.items;
    }

    /// The numbers that were drawn for it.
    pub fn numbers(&self) -> Numbers
        ensures { result ≡ self.now.numbers }
    {
        self.numbers
    }

    /// Whether each key was written.
    pub fn is_written_out(&self) -> bool
        ensures { result ≡ is_written_out self.now }
    {
        self.written == self.items.len()
    }

    /// Whether its flush turn has ended.
    pub fn is_flushed(&self) -> bool
        ensures { result ≡ self.now.flushed }
    {
        self.flushed
    }

    /// Its flush turn is passed over: a group without keys has written nothing that is to be flushed.
    pub fn skip_flush(&mut self)
        requires { self.old.items ≡ [] }
        ensures { self.new ≡ record (self.old) { flushed = true } }
    {
        self.flushed = true;
    }

    /// Its keys, in their order.
    pub fn items(&self) -> &[Item]
        ensures { result.now ≡ self.now.items }
    {
        &self.items
    }

    /// The leaves of its board at the freeze, and which of them are on it still.
    pub fn board(&self) -> &Board
        ensures { result.now ≡ self.now.board }
    {
        &self.board
    }

    /// Its block of an address, where it has one.
    pub fn block(&self, addr: u64) -> Option<&[u8]>
        ensures { option_copied result ≡ frozen_block self.now.items addr }
    {
        let key = Key {
            level: 0,
            index: addr,
        };
        let at = find(&self.items, key)?;
        Some(self.items[at].block.as_bytes())
    }

    /// The pointer of the volume's root page once the group is acknowledged, over the map that it was frozen over.
    pub fn root(&self, map: &BlockMap) -> Pointer
        ensures { result ≡ laid self.now.items (pointer_at map.now) root }
    {
        let Some(at) = find(&self.items, ROOT) else {
            return root_of(map);
        };
        self.items[at].pointer
    }
}

// Where a key stands.
fn find(items: &[Item], key: Key) -> Option<usize>
    requires { KeysRise items.now }
    ensures found { IfSome result (λ at. IsItemAt items.now key at) }
    ensures none { IfNone result (All (λ item. item.key ≢ key) items.now) }
{
    items.binary_search_by_key(&key, |item| item.key).ok()
}

// The root's pointer in a map.
fn root_of(map: &BlockMap) -> Pointer
    ensures { result ≡ pointer_at map.now root }
{
    map.keeps_its_form();
    map.get(ROOT).unwrap_or(Pointer::HOLE)
}
