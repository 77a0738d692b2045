//! Two lists of writes become one.
ghost use Rattle.std.specs.Prelude.{◌≡◌, ℕ, ◌+◌, ◌<◌, ◌≤◌, [], length, All};
ghost use Rattle.std.specs.Vec.{vec_capacity};
ghost use Rattle.std.specs.VecDeque.{deque_len};
ghost use Rattle.txg_engine.specs.Ending.{AreMerged, fresh_count};
ghost use Rattle.txg_engine.specs.Frozen.{KeysRise};
ghost use Rattle.txg_engine.specs.Merging.{block_addr, PopsWrite, TakesNext};
ghost use Rattle.txg_engine.specs.Writes.{RiseFrom};

use crate::item::Item;
use crate::write::Write;
use std::collections::VecDeque;

/// Appends the blocks of a group's keys and the newer writes, by rising addresses. At an address of both the newer one
/// wins. There is room for all.
pub(crate) fn merge(mut older: VecDeque<Item>, mut newer: VecDeque<Write>, out: &mut Vec<Write>)
    requires none { out.old.items ≡ [] }
    requires room { deque_len older + deque_len newer ≤ vec_capacity out.old }
    requires older { KeysRise older.items }
    requires newer { RiseFrom 0 newer.items }
    requires older_blocks { All (λ item. length item.block ≡ 4096) older.items }
    requires newer_blocks { All (λ write. length write.block ≡ 4096) newer.items }
    ensures merged { AreMerged older.items newer.items out.new.items }
    ensures rise { RiseFrom 0 out.new.items }
    ensures count { length out.new.items ≡ length newer.items + fresh_count newer.items older.items }
    ensures blocks { All (λ write. length write.block ≡ 4096) out.new.items }
    ensures room { vec_capacity out.old ≤ vec_capacity out.new }
{
    while let Some(write) = next(&mut older, &mut newer) {
        let _ = out.push(write);
    }
}

// Takes the write of the least address out of the lists.
fn next(older: &mut VecDeque<Item>, newer: &mut VecDeque<Write>) -> Option<Write>
    ensures { TakesNext older.old.items newer.old.items older.new.items newer.new.items result }
{
    let Some(old) = older.front().and_then(addr_of) else {
        return newer.pop_front();
    };
    let Some(new) = newer.front() else {
        return pop_write(older);
    };
    if old < new.addr {
        return pop_write(older);
    }
    if old == new.addr {
        let _ = older.pop_front();
    }
    newer.pop_front()
}

// The address of a block. A page has none, and stands behind all blocks.
fn addr_of(item: &Item) -> Option<u64>
    ensures { result ≡ block_addr item.now }
{
    if item.key.level == 0 {
        Some(item.key.index)
    } else {
        None
    }
}

fn pop_write(older: &mut VecDeque<Item>) -> Option<Write>
    ensures { PopsWrite older.old.items older.new.items result }
{
    let Item { key, block, .. } = older.pop_front()?;
    Some(Write {
        addr: key.index,
        block,
    })
}
