//! Leaves that leave the board, and numbers that are drawn.
ghost use Rattle.std.specs.Prelude.{◌≡◌, ℕ, ◌+◌, ◌^◌, ◌<◌, ◌≤◌, Some, true, false, List, length, map, All, OnErr, slice_get};
ghost use Rattle.vdev_tree.specs.declared.vdev.LeafVdev.{LeafVdev};
ghost use Rattle.dtl_rules.specs.Widening.{leaves_of, marks_of, sectors_of};
ghost use Rattle.txg_engine.specs.Boards.{on_board, without, as_taken, failed, emptied, AreServed, LeftByCause};
ghost use Rattle.txg_engine.specs.Logs.{AreGrown, is_leaf, is_off, IsReady};
ghost use Rattle.txg_engine.specs.Turns.{IsChecked, numbers_of, with_next};

use crate::board::Board;
use crate::changes::{owe_all, owe_off};
use crate::frozen::Frozen;
use crate::seat::{Numbers, Suspended};
use mp_base::{Group, Guid};
use vdev_tree::Top;

impl Frozen {
    ghost use Rattle.txg_engine.specs.Frozen.{FrozenGroup, AreSeated};
    ghost use Rattle.txg_engine.specs.Turns.{Answers, emptied_top, is_suspended};

    /// The leaf of this number leaves the board, where it is on it, and owes each number that was drawn for the group: it is
    /// taken offline, or faulted, or its device is gone. Nothing happens where it isn't on the board. Behind it each top keeps
    /// somebody on the board, or had a failed call (`kept`): a leaf that isn't required leaves somebody there, and of one whose
    /// device is gone the failed call is told first, by `count_fault`.
    pub fn leave(&mut self, tops: &mut [Top], member: Guid)
        requires kept { on_board self.old.board member ≡ true → AreServed (map (without member) (map (as_taken member) self.old.board)) }
        requires ready { All (IsReady self.old.board self.old.numbers.last.0) (leaves_of tops.old) }
        ensures group { self.new ≡ record self.old { board = map (without member) (map (as_taken member) self.old.board) } }
        ensures leaves { on_board self.old.board member ≡ true
            → AreGrown (is_leaf member) self.old.numbers.first.0 self.old.numbers.last.0 (leaves_of tops.old) (leaves_of tops.new) }
        ensures unchanged { on_board self.old.board member ≡ false → tops.new ≡ tops.old }
        ensures ready { All (IsReady self.new.board self.new.numbers.last.0) (leaves_of tops.new) }
        ensures seated { (size : ℕ → ℕ) (sectors : List ℕ) → AreSeated size sectors self.old → AreSeated size sectors self.new }
        ensures built { marks_of tops.new ≡ marks_of tops.old }
        ensures sectors { sectors_of tops.new ≡ sectors_of tops.old }
    {
        if self.board.has(member) {
            self.board.mark_taken(member);
            leave(&mut self.board, tops, self.numbers, member);
        }
    }

    /// A call on this leaf's device failed outside of the group's own turns, as in a read. It is told once for each such call, and
    /// for nothing else.
    pub fn count_fault(&mut self, member: Guid)
        ensures group { self.new ≡ record self.old { board = map (failed member) self.old.board } }
        ensures ready { (leaves : List LeafVdev) → All (IsReady self.old.board self.old.numbers.last.0) leaves
            → All (IsReady self.new.board self.new.numbers.last.0) leaves }
        ensures seated { (size : ℕ → ℕ) (sectors : List ℕ) → AreSeated size sectors self.old → AreSeated size sectors self.new }
    {
        self.board.count_fault(member);
    }

    /// Whether each top has somebody on the board. Where one has nobody left, the group is suspended.
    pub fn check(&self, tops: &[Top]) -> Result<(), Suspended>
        requires { length tops.now < 2 ^ 32 }
        ensures told { Answers (numbers_of tops.now) self.now (emptied_top (numbers_of tops.now) self.now) result }
        ensures suspended { OnErr result (is_suspended (numbers_of tops.now) self.now ≡ true) }
    {
        check(&self.board, tops, self.numbers.first)
    }
}

// A leaf leaves the board, and owes the numbers of the group.
pub(crate) fn leave(board: &mut Board, tops: &mut [Top], numbers: Numbers, member: Guid)
    requires low { 1 ≤ numbers.first.0 }
    requires order { numbers.first.0 ≤ numbers.last.0 }
    requires high { numbers.last.0 ≤ 2 ^ 62 }
    requires ready { All (IsReady board.old numbers.last.0) (leaves_of tops.old) }
    ensures board { board.new ≡ map (without member) board.old }
    ensures leaves { AreGrown (is_leaf member) numbers.first.0 numbers.last.0 (leaves_of tops.old) (leaves_of tops.new) }
    ensures ready { All (IsReady board.new numbers.last.0) (leaves_of tops.new) }
    ensures built { marks_of tops.new ≡ marks_of tops.old }
    ensures sectors { sectors_of tops.new ≡ sectors_of tops.old }
{
    board.remove(member);
    owe_all(tops, member, numbers);
}

// A further number is drawn: whoever isn't on the board owes it.
pub(crate) fn draw(board: &Board, tops: &mut [Top], numbers: &mut Numbers)
    requires high { numbers.old.last.0 + 1 ≤ 2 ^ 62 }
    requires ready { All (IsReady board.now numbers.old.last.0) (leaves_of tops.old) }
    ensures numbers { numbers.new ≡ with_next numbers.old }
    ensures leaves { AreGrown (is_off board.now) (numbers.old.last.0 + 1) (numbers.old.last.0 + 1) (leaves_of tops.old) (leaves_of tops.new) }
    ensures ready { All (IsReady board.now numbers.new.last.0) (leaves_of tops.new) }
    ensures built { marks_of tops.new ≡ marks_of tops.old }
    ensures sectors { sectors_of tops.new ≡ sectors_of tops.old }
{
    numbers.last = Group(numbers.last.0 + 1);
    owe_off(tops, board, numbers.last);
}

// The first top that has nobody on the board, where there is one.
pub(crate) fn check(board: &Board, tops: &[Top], group: Group) -> Result<(), Suspended>
    requires tops { length tops.now < 2 ^ 32 }
    requires left { All LeftByCause board.now }
    requires served { AreServed board.now }
    ensures { IsChecked (numbers_of tops.now) group board.now (emptied (length tops.now) board.now) result }
{
    let Some(top) = board.emptied(tops.len() as u32) else {
        return Ok(());
    };
    Err(Suspended {
        group,
        top: number_of_top(tops, top),
        faults: board.faults_under(top),
    })
}

// The member number of a top.
pub(crate) fn number_of_top(tops: &[Top], top: u32) -> Guid
    requires { top < length tops.now }
    ensures { slice_get (numbers_of tops.now) top ≡ Some result }
{
    let top = &tops[top as usize];
    top.mirror.guid()
}
