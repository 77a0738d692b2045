//! A freeze.
ghost use Rattle.std.specs.Prelude.{◌≡◌, ◌+◌, ◌^◌, ◌<◌, ◌≤◌, List, length, All, IfOk, IfErr, OnOk, OnErr};
ghost use Rattle.block_map.specs.Map.{Map};
ghost use Rattle.vdev_tree.specs.declared.top.Top.{Top};
ghost use Rattle.std.specs.List.{AllZip};
ghost use Rattle.dtl_rules.specs.Widening.{leaves_of, marks_of, sectors_of};
ghost use Rattle.txg_engine.specs.Boards.{seats_of};
ghost use Rattle.txg_engine.specs.Logs.{AreOwing, KeepsSets, is_off, IsReady};
ghost use Rattle.txg_engine.specs.Preparing.{IsPrepared};
ghost use Rattle.txg_engine.specs.Refusing.{BeginsGroup, IsCause};

use crate::changes::owe_off;
use crate::frozen::Frozen;
use crate::open::Open;
use crate::pins::Pins;
use crate::prepare::{Prepared, prepare};
use crate::seat::Numbers;
use crate::settle::{settle_blocks, settle_pages};
use block_map::BlockMap;
use mp_base::{Group, Guid, MemFault};
use std::alloc::{AllocError, Global};
use vdev_tree::Top;

/// Why a group isn't frozen.
#[derive(Clone, Copy, Debug, PartialEq, Eq)]
pub enum FreezeFault {
    /// This top, the first in order, has no leaf that may be written.
    NoBoard { top: Guid },
    /// Its blocks and the pages above them need so many places, and fewer are free and not pinned.
    NoRoom { need: u64, free: u64 },
    /// There was no memory.
    Memory,
}

impl From<MemFault> for FreezeFault {
    ghost use Rattle.std.specs.Prelude.{◌≡◌};
    ghost use Rattle.txg_engine.specs.declared.freezing.FreezeFault.TheVariants.{Memory};

    ghost from_gives = { λ _ e. e ≡ Memory };

    fn from(_: MemFault) -> FreezeFault {
        FreezeFault::Memory
    }
}

impl From<AllocError> for FreezeFault {
    ghost use Rattle.std.specs.Prelude.{◌≡◌};
    ghost use Rattle.txg_engine.specs.declared.freezing.FreezeFault.TheVariants.{Memory};

    ghost from_gives = { λ _ e. e ≡ Memory };

    fn from(_: AllocError) -> FreezeFault {
        FreezeFault::Memory
    }
}

/// A group that isn't frozen is handed back.
#[derive(Drop)]
pub struct Unfrozen {
    pub why: FreezeFault,
    pub group: Open,
}

/// Freezes a group under this number, which is above every other one. Its blocks and the pages above them get the least
/// places that are free and not pinned, in the order of their keys, and their sums; the board is the leaves that may be
/// written, and every other leaf owes the number. The map keeps the pointers of the record that the pool reads.
///
/// It takes all memory of the commit, before anything changes. At `Err` nothing has changed but the room in the sets of
/// leaves: a top has no leaf that may be written, else there are too few places, or there was no memory.
pub fn freeze(
    alloc: Global,
    group: Open,
    map: &mut BlockMap,
    tops: &mut [Top],
    pins: &mut Pins,
    number: Group,
) -> Result<Frozen, Unfrozen>
    requires volume { All (λ write. write.addr < map.old.blocks) group.writes }
    requires tops { length tops.old ≤ 8 }
    requires few { length (leaves_of tops.old) ≤ 32 }
    requires low { 1 ≤ number.0 }
    requires high { number.0 + 64 ≤ 2 ^ 62 }
    ensures group { IfOk result (BeginsGroup number group.writes map.old map.new tops.old) }
    ensures logs { OnOk result (AreOwing (is_off (seats_of 0 tops.old)) number.0 (leaves_of tops.old) (leaves_of tops.new)) }
    ensures ready { IfOk result (λ frozen. All (IsReady frozen.board number.0) (leaves_of tops.new)) }
    ensures pins_room { IfOk result (λ frozen. length pins.new.places + length frozen.items ≤ pins.new.room) }
    ensures pins { pins.new.places ≡ pins.old.places }
    ensures built { marks_of tops.new ≡ marks_of tops.old }
    ensures sectors { sectors_of tops.new ≡ sectors_of tops.old }
    ensures cause { IfErr result (λ unfrozen. IsCause group.writes map.old tops.old unfrozen.why) }
    ensures back { IfErr result (λ unfrozen. unfrozen.group ≡ group) }
    ensures map { OnErr result (map.new ≡ map.old) }
    ensures leaves { OnErr result (AllZip KeepsSets (leaves_of tops.old) (leaves_of tops.new)) }
{
    let prepared = match prepare(alloc, &group, map, tops, pins) {
        Ok(prepared) => prepared,
        Err(why) => return Err(Unfrozen { why, group }),
    };
    let frozen = settle_group(prepared, group, map, number);
    owe_off(tops, &frozen.board, number);
    Ok(frozen)
}

// Gives each key of the group its place.
fn settle_group(prepared: Prepared, group: Open, map: &mut BlockMap, number: Group) -> Frozen
    ghost first: { Map }
    requires first { first ≡ map.old }
    requires volume { All (λ write. write.addr < map.old.blocks) group.writes }
    requires low { 1 ≤ number.0 }
    requires high { number.0 + 64 ≤ 2 ^ 62 }
    requires prepared { (tops : List Top) × IsPrepared group.writes map.old tops prepared }
    requires few { length prepared.board ≤ 32 }
    ensures { (tops : List Top) → IsPrepared group.writes map.old tops prepared
        → BeginsGroup number group.writes map.old map.new tops result }
{
    let Prepared {
        pages,
        buffers,
        mut items,
        board,
        back,
    } = prepared;
    settle_blocks(map, &mut items, group.writes, number);
    settle_pages(map, &mut items, &pages, buffers, number);
    Frozen {
        numbers: Numbers {
            first: number,
            last: number,
        },
        items,
        written: 0,
        flushed: false,
        begun: false,
        acked: false,
        board,
        back,
    }
}
