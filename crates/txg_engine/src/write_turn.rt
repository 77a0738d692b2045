//! A write turn: one key's bytes go to each leaf of its top that is on the board.
ghost use Rattle.std.specs.Prelude.{◌≡◌, ℕ, ◌+◌, ◌^◌, ◌<◌, ◌≤◌, true, false, Some, length, map, All, OnErr, slice_get};
ghost use Rattle.dtl_rules.specs.Widening.{leaves_of, marks_of, sectors_of};
ghost use Rattle.txg_engine.specs.Logs.{IsReady};
ghost use Rattle.txg_engine.specs.Turns.{WritesItem};

use crate::fails::drop_failed;
use crate::frozen::Frozen;
use crate::item::Item;
use crate::members::devs_of;
use crate::seat::{MOST_LEAVES, Suspended};
use bank_core::Bank;
use label_store::Member;
use mirror_io::write_block;
use vdev_tree::Top;

/// Data sector 0 of a leaf is this sector of its device: the labels stand before it.
const DATA_START: u64 = 128;

impl Frozen {
    ghost use Rattle.txg_engine.specs.declared.item.Item.{Item};
    ghost use Rattle.txg_engine.specs.Frozen.{FrozenGroup, AreSeated};
    ghost use Rattle.txg_engine.specs.Turns.{Scene, IsWriteTurn, KeepsKeys, is_suspended, numbers_of};

    /// Writes the first key that wasn't written yet, on each leaf of its top that is on the board, in tree order. A leaf whose
    /// write failed leaves the board, and the others go on.
    ///
    /// At `Err` a top had nobody on the board: before the turn, and then no call was made, or behind it. Then `burn` is due.
    pub fn write_turn<B: Bank>(&mut self, bank: &mut B, tops: &mut [Top]) -> Result<(), Suspended>
        requires left { self.old.written < length self.old.items }
        requires unacked { self.old.acked ≡ false }
        requires seated { AreSeated (B.view bank.old).size (sectors_of tops.old) self.old }
        requires tops { length tops.old ≤ 8 }
        requires ready { All (IsReady self.old.board self.old.numbers.last.0) (leaves_of tops.old) }
        ensures turn { (item : Item) → slice_get self.old.items self.old.written ≡ Some item → IsWriteTurn (numbers_of tops.new) item
            (record { group = self.old; leaves = leaves_of tops.old; bank = B.view bank.old })
            (record { group = self.new; leaves = leaves_of tops.new; bank = B.view bank.new }) result }
        ensures ready { All (IsReady self.new.board self.new.numbers.last.0) (leaves_of tops.new) }
        ensures seated { AreSeated (B.view bank.new).size (sectors_of tops.new) self.new }
        ensures keys { KeepsKeys self.old self.new }
        ensures unacked { self.new.acked ≡ false }
        ensures suspended { OnErr result (is_suspended (numbers_of tops.new) self.new ≡ true) }
        ensures built { marks_of tops.new ≡ marks_of tops.old }
        ensures sectors { sectors_of tops.new ≡ sectors_of tops.old }
    {
        self.check(tops)?;
        let members = self
            .board
            .members_under(self.items[self.written].pointer.place.top);
        let mut done = [true; MOST_LEAVES];
        let done = &mut done[..members.as_slice().len()];
        write_item(bank, &self.items[self.written], members.as_slice(), done);
        self.written += 1;
        drop_failed(
            &mut self.board,
            tops,
            self.numbers,
            members.as_slice(),
            done,
        );
        self.check(tops)
    }
}

// Writes a key's bytes on the devices of these members, and says of each whether it took them.
fn write_item<B: Bank>(bank: &mut B, item: &Item, members: &[Member], done: &mut [bool])
    requires few { length members.now ≤ 32 }
    requires paired { length done.old ≡ length members.now }
    requires sector { item.now.pointer.place.sector < 2 ^ 32 }
    requires within { All (λ m. 128 + item.now.pointer.place.sector < (B.view bank.old).size m.dev) members.now }
    ensures { WritesItem item.now members.now done.new (B.view bank.old) (B.view bank.new) }
{
    let devs = devs_of(members);
    let at = DATA_START + item.pointer.place.sector;
    write_block(
        bank,
        &devs[..members.len()],
        at,
        item.block.as_bytes(),
        done,
    );
}
