//! The flush turn: each leaf that is on the board is flushed.
ghost use Rattle.std.specs.Prelude.{◌≡◌, ℕ, ◌<◌, ◌≤◌, true, false, length, map, All, OnErr};
ghost use Rattle.dtl_rules.specs.Widening.{leaves_of, marks_of, sectors_of};
ghost use Rattle.txg_engine.specs.Logs.{IsReady};
ghost use Rattle.txg_engine.specs.Turns.{FlushesAll};

use crate::fails::drop_failed;
use crate::frozen::Frozen;
use crate::seat::{MOST_LEAVES, Suspended};
use bank_core::Bank;
use label_store::Member;
use vdev_tree::Top;

impl Frozen {
    ghost use Rattle.txg_engine.specs.Frozen.{FrozenGroup, AreSeated};
    ghost use Rattle.txg_engine.specs.Turns.{Scene, IsFlushTurn, KeepsKeys, is_suspended, numbers_of};

    /// Flushes each leaf that is on the board, in tree order, once each key was written. A leaf whose flush failed leaves the
    /// board, and the others go on.
    ///
    /// At `Err` a top had nobody on the board: before the turn, and then no call was made, or behind it. Then `burn` is due.
    pub fn flush_turn<B: Bank>(&mut self, bank: &mut B, tops: &mut [Top]) -> Result<(), Suspended>
        requires written { self.old.written ≡ length self.old.items }
        requires unflushed { self.old.flushed ≡ false }
        requires unacked { self.old.acked ≡ false }
        requires seated { AreSeated (B.view bank.old).size (sectors_of tops.old) self.old }
        requires tops { length tops.old ≤ 8 }
        requires ready { All (IsReady self.old.board self.old.numbers.last.0) (leaves_of tops.old) }
        ensures turn { IsFlushTurn (numbers_of tops.new)
            (record { group = self.old; leaves = leaves_of tops.old; bank = B.view bank.old })
            (record { group = self.new; leaves = leaves_of tops.new; bank = B.view bank.new }) result }
        ensures ready { All (IsReady self.new.board self.new.numbers.last.0) (leaves_of tops.new) }
        ensures seated { AreSeated (B.view bank.new).size (sectors_of tops.new) self.new }
        ensures keys { KeepsKeys self.old self.new }
        ensures unacked { self.new.acked ≡ false }
        ensures suspended { OnErr result (is_suspended (numbers_of tops.new) self.new ≡ true) }
        ensures built { marks_of tops.new ≡ marks_of tops.old }
        ensures sectors { sectors_of tops.new ≡ sectors_of tops.old }
    {
        self.check(tops)?;
        let members = self.board.members();
        let mut done = [true; MOST_LEAVES];
        let done = &mut done[..members.as_slice().len()];
        flush_all(bank, members.as_slice(), done);
        self.flushed = true;
        drop_failed(
            &mut self.board,
            tops,
            self.numbers,
            members.as_slice(),
            done,
        );
        self.check(tops)
    }
}

// Flushes each of these members, and says of each whether it answered.
fn flush_all<B: Bank>(bank: &mut B, members: &[Member], done: &mut [bool])
    requires paired { length done.old ≡ length members.now }
    requires devices { All (λ m. 0 < (B.view bank.old).size m.dev) members.now }
    ensures { FlushesAll members.now done.new (B.view bank.old) (B.view bank.new) }
{
    for i in 0..members.len() {
        done[i] = bank.flush(members[i].dev).is_ok();
    }
}
