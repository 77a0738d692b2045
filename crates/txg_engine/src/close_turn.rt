//! A round: the record of the group goes onto the labels of each leaf that is on the board.
ghost use Rattle.std.specs.Prelude.{◌≡◌, ℕ, ◌<◌, ◌≤◌, true, false, length, take, All, OnErr};
ghost use Rattle.label_store.specs.Committing.{IsSealed};
ghost use Rattle.label_store.specs.Records.{IsHeaded};
ghost use Rattle.dtl_rules.specs.Widening.{leaves_of, marks_of, sectors_of};
ghost use Rattle.txg_engine.specs.Logs.{IsReady};
ghost use Rattle.txg_engine.specs.Turns.{all_done};

use crate::changes::settle_all;
use crate::fails::drop_failed;
use crate::frozen::Frozen;
use crate::leave::draw;
use crate::seat::{MOST_LEAVES, Suspended};
use bank_core::Bank;
use label_store::{BlobRule, commit_record};
use mp_base::{Group, Guid};
use vdev_tree::Top;

/// How a round ended.
#[derive(Clone, Copy, Debug, PartialEq, Eq)]
pub enum Closed {
    /// No leaf failed: the record of this number is acknowledged, and `adopt` is due.
    Committed(Group),
    /// A leaf failed in the round of this number. A further one was drawn, for the next round.
    Round(Group),
}

impl Frozen {
    ghost use Rattle.txg_engine.specs.Frozen.{FrozenGroup, AreSeated};
    ghost use Rattle.txg_engine.specs.Turns.{Scene, IsCloseTurn, KeepsKeys, is_committed, is_suspended, numbers_of};

    /// Makes one round over the board, of the configuration with the group's last number that is the first `config_bytes` of
    /// `blob`. Where no leaf failed, the record is acknowledged, and what each leaf owes is settled. A leaf that failed leaves
    /// the board, the others go on, and the next number is drawn.
    ///
    /// At `Err` a top had nobody on the board: before the turn, and then no call was made, or behind it. Then `burn` is due.
    pub fn close_turn<B: Bank, R: BlobRule>(
        &mut self,
        bank: &mut B,
        tops: &mut [Top],
        pool: Guid,
        blob: &[u8],
        config_bytes: usize,
    ) -> Result<Closed, Suspended>
        requires flushed { self.old.flushed ≡ true }
        requires unacked { self.old.acked ≡ false }
        requires sealed { IsSealed blob.now config_bytes }
        requires headed { IsHeaded R.head_of pool self.old.numbers.last (take config_bytes blob.now) }
        requires seated { AreSeated (B.view bank.old).size (sectors_of tops.old) self.old }
        requires tops { length tops.old ≤ 8 }
        requires ready { All (IsReady self.old.board self.old.numbers.last.0) (leaves_of tops.old) }
        ensures turn { IsCloseTurn R.head_of (record { pool = pool; number = self.old.numbers.last; blob = blob.now; length = config_bytes })
            (numbers_of tops.new) (record { group = self.old; leaves = leaves_of tops.old; bank = B.view bank.old })
            (record { group = self.new; leaves = leaves_of tops.new; bank = B.view bank.new }) result }
        ensures ready { All (IsReady self.new.board self.new.numbers.last.0) (leaves_of tops.new) }
        ensures seated { AreSeated (B.view bank.new).size (sectors_of tops.new) self.new }
        ensures keys { KeepsKeys self.old self.new }
        ensures acked { self.new.acked ≡ is_committed result }
        ensures suspended { OnErr result (is_suspended (numbers_of tops.new) self.new ≡ true) }
        ensures built { marks_of tops.new ≡ marks_of tops.old }
        ensures sectors { sectors_of tops.new ≡ sectors_of tops.old }
    {
        self.check(tops)?;
        let members = self.board.members();
        let mut done = [true; MOST_LEAVES];
        let done = &mut done[..members.as_slice().len()];
        let number = self.numbers.last;
        self.begun = true;
        commit_record::<B, R>(
            bank,
            members.as_slice(),
            pool,
            number,
            blob,
            config_bytes,
            done,
        );
        if all_done(done) {
            settle_all(tops);
            self.acked = true;
            return Ok(Closed::Committed(number));
        }
        drop_failed(
            &mut self.board,
            tops,
            self.numbers,
            members.as_slice(),
            done,
        );
        self.check(tops)?;
        draw(&self.board, tops, &mut self.numbers);
        Ok(Closed::Round(number))
    }
}

// Whether each of these calls was done.
fn all_done(done: &[bool]) -> bool
    ensures { result ≡ all_done done.now }
{
    done.iter().all(|done| *done)
}
