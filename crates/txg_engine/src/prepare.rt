//! All memory of a commit, taken before anything changes.
ghost use Rattle.std.specs.Prelude.{◌≡◌, ℕ, ◌+◌, ◌*◌, ◌^◌, ◌<◌, ◌≤◌, ◌++◌, None, [], length, map, vec_len, All, IfOk, IfErr, OnOk, OnErr};
ghost use Rattle.std.specs.List.{AllZip};
ghost use Rattle.std.specs.Vec.{vec_capacity};
ghost use Rattle.dtl_rules.specs.Widening.{leaves_of, marks_of, sectors_of};
ghost use Rattle.txg_engine.specs.Freezing.{addr_of, page_keys};
ghost use Rattle.txg_engine.specs.Logs.{KeepsSets, HasCommitRoom};
ghost use Rattle.txg_engine.specs.Preparing.{IsPrepared};
ghost use Rattle.txg_engine.specs.Refusing.{IsCause, need, unwritable};

use crate::board::Board;
use crate::freezing::FreezeFault;
use crate::item::Item;
use crate::leave::number_of_top;
use crate::open::{MOST_WRITES, Open};
use crate::pins::Pins;
use crate::room::reserve_sets;
use crate::write::Write;
use block_map::{BlockMap, pages_above};
use mp_base::{BLOCK_BYTES, Key, MemFault};
use std::alloc::Global;
use vdev_tree::Top;

/// What a freeze needs: the dirty pages with the memory for their bytes, the board, and room for the group's keys and for
/// the open group that it becomes where it is suspended.
#[derive(Drop)]
pub(crate) struct Prepared {
    pub(crate) pages: Vec<Key>,
    pub(crate) buffers: Vec<Vec<u8>>,
    pub(crate) items: Vec<Item>,
    pub(crate) board: Board,
    pub(crate) back: Vec<Write>,
}

/// Takes all memory of a commit of this group, where it has the places and each top a leaf to be written. Else nothing
/// has changed but the room in the sets of leaves.
#[tactic(auto, using(crate::proofs::RoomMade::kept_all))]
pub(crate) fn prepare(
    alloc: Global,
    group: &Open,
    map: &BlockMap,
    tops: &mut [Top],
    pins: &mut Pins,
) -> Result<Prepared, FreezeFault>
    requires tops { length tops.old ≤ 8 }
    requires few { length (leaves_of tops.old) ≤ 32 }
    ensures prepared { IfOk result (IsPrepared group.now.writes map.now tops.old) }
    ensures room { OnOk result (All HasCommitRoom (leaves_of tops.new)) }
    ensures cause { IfErr result (IsCause group.now.writes map.now tops.old) }
    ensures leaves { AllZip KeepsSets (leaves_of tops.old) (leaves_of tops.new) }
    ensures built { marks_of tops.new ≡ marks_of tops.old }
    ensures sectors { sectors_of tops.new ≡ sectors_of tops.old }
    ensures pins { pins.new.places ≡ pins.old.places }
    ensures pins_room { OnOk result (length pins.new.places + need group.now.writes ≤ pins.new.room) }
{
    let board = Board::over(alloc, tops)?;
    if let Some(top) = board.emptied(tops.len() as u32) {
        return Err(FreezeFault::NoBoard {
            top: number_of_top(tops, top),
        });
    }
    let pages = dirty_pages(alloc, group)?;
    let keys = count_keys(group, &pages);
    check_room(map, keys)?;
    let buffers = buffers_for(alloc, pages.len())?;
    let items = Vec::with_capacity(alloc, keys)?;
    let back = Vec::with_capacity(alloc, keys + MOST_WRITES)?;
    pins.reserve(keys)?;
    reserve_sets(tops)?;
    Ok(Prepared {
        pages,
        buffers,
        items,
        board,
        back,
    })
}

// How many keys a group of these pages has.
fn count_keys(group: &Open, pages: &[Key]) -> usize
    ensures count { result ≡ length group.now.writes + length pages.now }
    ensures few { result + 4096 < 2 ^ 64 }
{
    group.writes.len() + pages.len()
}

// Whether there are places for so many keys.
fn check_room(map: &BlockMap, keys: usize) -> Result<(), FreezeFault>
    ensures ok { OnOk result (keys ≤ map.now.count) }
    ensures err { IfErr result (λ fault. (fault ≡ FreezeFault.NoRoom keys map.now.count) × (map.now.count < keys)) }
{
    let need = keys as u64;
    let free = map.free_count();
    if need > free {
        return Err(FreezeFault::NoRoom { need, free });
    }
    Ok(())
}

// The pages above the group's blocks, in the order of keys.
fn dirty_pages(alloc: Global, group: &Open) -> Result<Vec<Key>, MemFault>
    ensures { IfOk result (λ pages. pages.items ≡ page_keys (map addr_of group.now.writes)) }
{
    let mut addrs = Vec::with_capacity(alloc, group.len())?;
    for write in &group.writes {
        addrs.push(write.addr)?;
    }
    let mut pages = Vec::with_capacity(alloc, 3 * group.len())?;
    for level in 1..4 {
        pages_above(level, &addrs, &mut pages);
    }
    Ok(pages)
}

// As many pages of zeros.
fn buffers_for(alloc: Global, count: usize) -> Result<Vec<Vec<u8>>, MemFault>
    ensures count { IfOk result (λ buffers. length buffers.items ≡ count) }
    ensures sizes { IfOk result (λ buffers. All (λ buffer. length buffer.items ≡ 4096) buffers.items) }
{
    let mut buffers = Vec::with_capacity(alloc, count)?;
    for _ in 0..count {
        buffers.push(vec![in alloc; 0; BLOCK_BYTES]?)?;
    }
    Ok(buffers)
}
