//! The leaves of a commit, and its numbers.
use label_store::Member;
use mp_base::{Group, Guid};

/// The most leaves of a pool.
pub const MOST_LEAVES: usize = 32;

/// A leaf that was on the board at the freeze: the place of its top in the pool's list of tops, whether it is on the board
/// still, whether the pool took it off (`leave`), and how many calls on its device failed since.
#[derive(Clone, Copy, Debug, PartialEq, Eq)]
pub struct Seat {
    pub member: Member,
    pub top: u32,
    pub on: bool,
    pub taken: bool,
    pub faults: u64,
}

/// The numbers that were drawn for a group: one at its freeze, and one for each further round.
#[derive(Clone, Copy, Debug, PartialEq, Eq)]
pub struct Numbers {
    pub first: Group,
    pub last: Group,
}

/// A top has nobody left on the board, so the group can't go on. It is told by the number that was drawn at its freeze, the
/// top's member number, and how many calls failed since on those leaves of the top that were on the board then.
#[derive(Clone, Copy, Debug, PartialEq, Eq)]
pub struct Suspended {
    pub group: Group,
    pub top: Guid,
    pub faults: u64,
}
