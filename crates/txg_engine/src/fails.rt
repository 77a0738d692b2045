//! Leaves whose calls failed in a turn.
ghost use Rattle.std.specs.Prelude.{◌≡◌, ℕ, ◌^◌, ◌≤◌, ◌∷◌, [], length, map, All};
ghost use Rattle.dtl_rules.specs.Widening.{leaves_of, marks_of, sectors_of};
ghost use Rattle.txg_engine.specs.Boards.{behind_turn, without, failed};
ghost use Rattle.txg_engine.specs.Logs.{AreBehind, Fails, IsReady};

use crate::board::Board;
use crate::changes::count_failed_write;
use crate::leave::leave;
use crate::seat::Numbers;
use label_store::Member;
use mp_base::Guid;
use vdev_tree::Top;

/// Each of these members whose call failed is counted, and leaves the board.
pub(crate) fn drop_failed(
    board: &mut Board,
    tops: &mut [Top],
    numbers: Numbers,
    members: &[Member],
    done: &[bool],
)
    requires paired { length done.now ≡ length members.now }
    requires low { 1 ≤ numbers.first.0 }
    requires order { numbers.first.0 ≤ numbers.last.0 }
    requires high { numbers.last.0 ≤ 2 ^ 62 }
    requires ready { All (IsReady board.old numbers.last.0) (leaves_of tops.old) }
    ensures board { board.new ≡ behind_turn members.now done.now board.old }
    ensures leaves { AreBehind numbers members.now done.now (leaves_of tops.old) (leaves_of tops.new) }
    ensures ready { All (IsReady board.new numbers.last.0) (leaves_of tops.new) }
    ensures built { marks_of tops.new ≡ marks_of tops.old }
    ensures sectors { sectors_of tops.new ≡ sectors_of tops.old }
{
    for i in 0..members.len() {
        fail_unless(board, tops, numbers, members[i], done[i]);
    }
}

// A call on this member failed, unless it is done.
fn fail_unless(board: &mut Board, tops: &mut [Top], numbers: Numbers, member: Member, done: bool)
    requires low { 1 ≤ numbers.first.0 }
    requires order { numbers.first.0 ≤ numbers.last.0 }
    requires high { numbers.last.0 ≤ 2 ^ 62 }
    requires ready { All (IsReady board.old numbers.last.0) (leaves_of tops.old) }
    ensures board { board.new ≡ behind_turn (member ∷ []) (done ∷ []) board.old }
    ensures leaves { AreBehind numbers (member ∷ []) (done ∷ []) (leaves_of tops.old) (leaves_of tops.new) }
    ensures ready { All (IsReady board.new numbers.last.0) (leaves_of tops.new) }
    ensures built { marks_of tops.new ≡ marks_of tops.old }
    ensures sectors { sectors_of tops.new ≡ sectors_of tops.old }
{
    if done {
        return;
    }
    fail(board, tops, numbers, member.guid);
}

// A call on this member failed.
fn fail(board: &mut Board, tops: &mut [Top], numbers: Numbers, member: Guid)
    requires low { 1 ≤ numbers.first.0 }
    requires order { numbers.first.0 ≤ numbers.last.0 }
    requires high { numbers.last.0 ≤ 2 ^ 62 }
    requires ready { All (IsReady board.old numbers.last.0) (leaves_of tops.old) }
    ensures board { board.new ≡ map (without member) (map (failed member) board.old) }
    ensures leaves { Fails numbers member (leaves_of tops.old) (leaves_of tops.new) }
    ensures ready { All (IsReady board.new numbers.last.0) (leaves_of tops.new) }
    ensures built { marks_of tops.new ≡ marks_of tops.old }
    ensures sectors { sectors_of tops.new ≡ sectors_of tops.old }
{
    board.count_fault(member);
    count_failed_write(tops, member);
    leave(board, tops, numbers, member);
}
