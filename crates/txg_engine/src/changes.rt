//! What a group does to the leaves of its pool.
ghost use Rattle.std.specs.Prelude.{◌≡◌, ◌^◌, ◌<◌, ◌≤◌, All};
ghost use Rattle.std.specs.List.{AllZip};
ghost use Rattle.vdev_tree.specs.declared.vdev.LeafVdev.{LeafVdev};
ghost use Rattle.dtl_rules.specs.Widening.{leaves_of, marks_of, sectors_of};
ghost use Rattle.txg_engine.specs.declared.seat.Seat.{Seat};
ghost use Rattle.txg_engine.specs.Boards.{on_board};
ghost use Rattle.txg_engine.specs.Logs.{is_off, is_leaf, has_spare, Grows, ChangeAndFit, AreGrown, count_write, IsSettled, HasSettledRoom, IsCut};

use crate::board::Board;
use crate::leaves::change_tops;
use crate::seat::Numbers;
use dtl_rules::fit;
use mp_base::{Group, Guid};
use vdev_tree::{LeafChange, LeafVdev, Top};

/// Each leaf that isn't on the board owes the number.
#[derive(Drop)]
struct OweOff<'a> {
    board: &'a Board,
    number: Group,
}

impl LeafChange for OweOff<'_> {
    ghost may = { λ c leaf. (1 ≤ c.number.0) × (c.number.0 ≤ 2 ^ 62) × (has_spare leaf) };

    ghost changes = { λ c old new. Grows (is_off c.board.now) c.number.0 c.number.0 old new };

    fn change(&self, leaf: &mut LeafVdev) {
        if !self.board.has(leaf.guid) {
            leaf.log.insert(self.number);
        }
    }
}

/// The leaf of this number owes each number of the group.
#[derive(Drop)]
struct OweAll {
    member: Guid,
    numbers: Numbers,
}

impl LeafChange for OweAll {
    ghost may = { λ c leaf. (1 ≤ c.numbers.first.0) × (c.numbers.first.0 ≤ c.numbers.last.0) × (c.numbers.last.0 ≤ 2 ^ 62)
        × (has_spare leaf) };

    ghost changes = { λ c old new. Grows (is_leaf c.member) c.numbers.first.0 c.numbers.last.0 old new };

    fn change(&self, leaf: &mut LeafVdev) {
        if leaf.guid == self.member {
            leaf.log.insert_range(self.numbers.first, self.numbers.last);
        }
    }
}

/// A write or a flush of the leaf of this number failed.
#[derive(Drop)]
struct CountWrite {
    member: Guid,
}

impl LeafChange for CountWrite {
    ghost may = { λ c leaf. Unit {0} };

    ghost changes = { λ c old new. new ≡ count_write c.member old };

    fn change(&self, leaf: &mut LeafVdev) {
        if leaf.guid == self.member {
            leaf.counts.writes = leaf.counts.writes.saturating_add(1);
        }
    }
}

/// What a leaf owes is settled.
#[derive(Drop)]
struct Settle;

impl LeafChange for Settle {
    ghost may = { λ c leaf. HasSettledRoom leaf };

    ghost changes = { λ c old new. IsSettled old new };

    fn change(&self, leaf: &mut LeafVdev) {
        leaf.settled.assign(&leaf.log);
    }
}

/// The numbers from this one on leave the logs and what is settled.
#[derive(Drop)]
struct CutFrom {
    number: Group,
}

impl LeafChange for CutFrom {
    ghost may = { λ c leaf. Unit {0} };

    ghost changes = { λ c old new. IsCut c.number.0 old new };

    fn change(&self, leaf: &mut LeafVdev) {
        leaf.log.cut_from(self.number);
        leaf.settled.cut_from(self.number);
    }
}

/// Each leaf that isn't on the board owes this number from now on. Logs that have become too large are widened.
pub(crate) fn owe_off(tops: &mut [Top], board: &Board, number: Group)
    requires low { 1 ≤ number.0 }
    requires high { number.0 ≤ 2 ^ 62 }
    requires room { All has_spare (leaves_of tops.old) }
    ensures leaves { AreGrown (is_off board.now) number.0 number.0 (leaves_of tops.old) (leaves_of tops.new) }
    ensures built { marks_of tops.new ≡ marks_of tops.old }
    ensures sectors { sectors_of tops.new ≡ sectors_of tops.old }
{
    change_and_fit(tops, &OweOff { board, number });
}

/// The leaf of this number owes each number of the group from now on. Logs that have become too large are widened.
pub(crate) fn owe_all(tops: &mut [Top], member: Guid, numbers: Numbers)
    requires low { 1 ≤ numbers.first.0 }
    requires order { numbers.first.0 ≤ numbers.last.0 }
    requires high { numbers.last.0 ≤ 2 ^ 62 }
    requires room { All has_spare (leaves_of tops.old) }
    ensures leaves { AreGrown (is_leaf member) numbers.first.0 numbers.last.0 (leaves_of tops.old) (leaves_of tops.new) }
    ensures built { marks_of tops.new ≡ marks_of tops.old }
    ensures sectors { sectors_of tops.new ≡ sectors_of tops.old }
{
    change_and_fit(tops, &OweAll { member, numbers });
}

// Does this to each leaf, and widens logs that have become too large.
fn change_and_fit<C: LeafChange>(tops: &mut [Top], change: &C)
    requires { All (C.may change.now) (leaves_of tops.old) }
    ensures leaves { ChangeAndFit (C.changes change.now) (leaves_of tops.old) (leaves_of tops.new) }
    ensures built { marks_of tops.new ≡ marks_of tops.old }
    ensures sectors { sectors_of tops.new ≡ sectors_of tops.old }
{
    change_tops(tops, change);
    fit(tops);
}

/// Counts a failed write or flush of the leaf of this number.
pub(crate) fn count_failed_write(tops: &mut [Top], member: Guid)
    ensures leaves { AllZip (λ old new. new ≡ count_write member old) (leaves_of tops.old) (leaves_of tops.new) }
    ensures built { marks_of tops.new ≡ marks_of tops.old }
    ensures sectors { sectors_of tops.new ≡ sectors_of tops.old }
{
    change_tops(tops, &CountWrite { member });
}

/// What each leaf owes is settled.
pub(crate) fn settle_all(tops: &mut [Top])
    requires room { All HasSettledRoom (leaves_of tops.old) }
    ensures leaves { AllZip IsSettled (leaves_of tops.old) (leaves_of tops.new) }
    ensures built { marks_of tops.new ≡ marks_of tops.old }
    ensures sectors { sectors_of tops.new ≡ sectors_of tops.old }
{
    change_tops(tops, &Settle);
}

/// No leaf owes a number from this one on, nor is one settled.
pub(crate) fn cut_all(tops: &mut [Top], number: Group)
    ensures leaves { AllZip (IsCut number.0) (leaves_of tops.old) (leaves_of tops.new) }
    ensures built { marks_of tops.new ≡ marks_of tops.old }
    ensures sectors { sectors_of tops.new ≡ sectors_of tops.old }
{
    change_tops(tops, &CutFrom { number });
}
