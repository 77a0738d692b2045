//! Places, bytes and sums of a group's keys, in the order of the keys.
ghost use Rattle.std.specs.Prelude.{◌≡◌, ℕ, ◌+◌, ◌^◌, ◌<◌, ◌≤◌, ◌++◌, true, length, take, All, AllPairs};
ghost use Rattle.std.specs.Option.{option_copied};
ghost use Rattle.std.specs.Vec.{vec_capacity};
ghost use Rattle.mp_base.specs.declared.place.Key.{Key};
ghost use Rattle.mp_base.specs.declared.place.Pointer.{Pointer};
ghost use Rattle.block_map.specs.Keys.{IsBefore, IsPage};
ghost use Rattle.block_map.specs.Map.{Map, pointer_at, children};
ghost use Rattle.block_map.specs.Pages.{page_bytes};
ghost use Rattle.txg_engine.specs.Freezing.{AreSettled, SettlesNext, block_keys};
ghost use Rattle.txg_engine.specs.Items.{keys_of, frozen_block, laid, put, is_before_page, is_up_to_page, IsNextUpTo};
ghost use Rattle.txg_engine.specs.Writes.{block_at};

use crate::item::{FANOUT, Item};
use crate::write::Write;
use block_map::{BlockMap, write_page};
use mp_base::{Block, Group, Key, Pointer};
use sha2::{Digest, Sha256};
use std::collections::VecDeque;

/// Gives each of these blocks the next place. There are places, and room for the keys.
pub(crate) fn settle_blocks(
    map: &mut BlockMap,
    items: &mut Vec<Item>,
    writes: Vec<Write>,
    number: Group,
)
    requires places { length writes.items ≤ map.old.count }
    requires room { length items.old.items + length writes.items ≤ vec_capacity items.old }
    requires none { length items.old.items ≡ 0 }
    requires long { All (λ write. length write.block ≡ 4096) writes.items }
    ensures settled { AreSettled number.0 map.old map.new items.new.items }
    ensures keys { keys_of items.new.items ≡ block_keys writes.items }
    ensures blocks { (a : ℕ) → frozen_block items.new.items a ≡ block_at writes.items a }
    ensures long { All (λ item. length item.block ≡ 4096) items.new.items }
    ensures room { vec_capacity items.old ≤ vec_capacity items.new }
{
    let mut writes = VecDeque::from_vec(writes);
    while let Some(write) = writes.pop_front() {
        let Write { addr, block } = write;
        let key = Key {
            level: 0,
            index: addr,
        };
        settle(map, items, key, block, number);
    }
}

/// Gives each of these pages the pointers below it, and the next place. There are places, room for the keys, and a buffer for
/// each page. Keys and pages rise, so the keys are gone through once, over all pages.
pub(crate) fn settle_pages(
    map: &mut BlockMap,
    items: &mut Vec<Item>,
    pages: &[Key],
    mut buffers: Vec<Vec<u8>>,
    number: Group,
)
    ghost first: { Map }
    requires pages { All (IsPage first.blocks) pages.now }
    requires rise { AllPairs IsBefore (keys_of items.old.items ++ pages.now) }
    requires places { length pages.now ≤ map.old.count }
    requires room { length items.old.items + length pages.now ≤ vec_capacity items.old }
    requires buffers { length buffers.items ≡ length pages.now }
    requires sizes { All (λ buffer. length buffer.items ≡ 4096) buffers.items }
    requires before { AreSettled number.0 first map.old items.old.items }
    requires long { All (λ item. length item.block ≡ 4096) items.old.items }
    ensures settled { AreSettled number.0 first map.new items.new.items }
    ensures keys { keys_of items.new.items ≡ keys_of items.old.items ++ pages.now }
    ensures blocks { (a : ℕ) → frozen_block items.new.items a ≡ frozen_block items.old.items a }
    ensures long { All (λ item. length item.block ≡ 4096) items.new.items }
{
    let mut passed = 0;
    for page in pages {
        let bytes = buffers.pop().unwrap();
        let block = page_block(map, items, *page, &mut passed, bytes);
        settle(map, items, *page, block, number);
    }
}

// Gives a key the least place that is free and not pinned. There is one, and room for the key.
fn settle(map: &mut BlockMap, items: &mut Vec<Item>, key: Key, block: Block, number: Group)
    requires place { 1 ≤ map.old.count }
    requires room { length items.old.items < vec_capacity items.old }
    ensures next { SettlesNext number.0 map.old map.new items.old.items items.new.items key block }
    ensures room { vec_capacity items.old ≤ vec_capacity items.new }
{
    let pointer = Pointer {
        birth: number,
        place: map.alloc().unwrap(),
        sum: Sha256::digest(block.as_bytes()),
    };
    let _ = items.push(Item {
        key,
        pointer,
        block,
    });
}

// A page's block, in this memory, as `fill_page` fills it.
fn page_block(
    map: &BlockMap,
    items: &[Item],
    page: Key,
    passed: &mut usize,
    mut bytes: Vec<u8>,
) -> Block
    requires page { IsPage map.now.blocks page }
    requires room { length bytes.items ≡ 4096 }
    requires rise { AllPairs IsBefore (keys_of items.now) }
    requires before { All (λ item. is_before_page page item.key ≡ true) (take passed.old items.now) }
    requires within { passed.old ≤ length items.now }
    ensures long { length result ≡ 4096 }
    ensures page { result ≡ page_bytes (children (laid items.now (pointer_at map.now)) page) }
    ensures passed { All (λ item. is_up_to_page page item.key ≡ true) (take passed.new items.now) }
    ensures within { passed.new ≤ length items.now }
{
    fill_page(map, items, page, passed, &mut bytes);
    Block::new(bytes)
}

// Writes a page's bytes: the pointers of its keys, as they are once these keys are committed. So many of the keys were passed
// at the pages before, and come before this page's; behind it those are passed that don't come behind this page's.
fn fill_page(map: &BlockMap, items: &[Item], page: Key, passed: &mut usize, bytes: &mut [u8])
    requires page { IsPage map.now.blocks page }
    requires room { length bytes.old ≡ 4096 }
    requires rise { AllPairs IsBefore (keys_of items.now) }
    requires before { All (λ item. is_before_page page item.key ≡ true) (take passed.old items.now) }
    requires within { passed.old ≤ length items.now }
    ensures bytes { bytes.new ≡ page_bytes (children (laid items.now (pointer_at map.now)) page) }
    ensures passed { All (λ item. is_up_to_page page item.key ≡ true) (take passed.new items.now) }
    ensures within { passed.new ≤ length items.now }
{
    let mut pointers = [Pointer::HOLE; 64];
    pointers.copy_from_slice(map.children(page));
    while let Some(item) = next_up_to(items, *passed, page) {
        put_child(&mut pointers, item, page);
        *passed += 1;
    }
    write_page(&pointers, bytes);
}

// The item at this place, where it doesn't come behind the page's keys.
fn next_up_to(items: &[Item], at: usize, page: Key) -> Option<&Item>
    requires { 1 ≤ page.level }
    ensures { IsNextUpTo items.now page at (option_copied result) }
{
    let item = items.get(at)?;
    if item.is_up_to(page) {
        Some(item)
    } else {
        None
    }
}

// Puts a key's pointer into a page's, where it stands there.
fn put_child(pointers: &mut [Pointer], item: &Item, page: Key)
    requires level { 1 ≤ page.level }
    requires size { length pointers.old ≡ 64 }
    ensures { (at : Key → Pointer) → pointers.old ≡ children at page → pointers.new ≡ children (put item.now at) page }
{
    if !item.is_child_of(page) {
        return;
    }
    pointers[(item.key.index % FANOUT) as usize] = item.pointer;
}
