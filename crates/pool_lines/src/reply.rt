//! The reply to a line.

use crate::{LeafLogs, Refusal};
use mp_base::{Block, Group};
use vdev_tree::State;

/// The reply to a line (docs/FORMATS.md, "Replies").
#[derive(Drop)]
pub enum Reply {
    /// `ok`
    Done,
    /// `ok N`: the number of the group that is committed, or at `freeze` of the one that was frozen.
    Numbered(Group),
    /// `ok DATA`: a block.
    Data(Block),
    /// `ok STATE`: the state that a device has now.
    State(State),
    /// `ok`, and `NAME=LOG` for each leaf: the groups that it lacks.
    Logs(LeafLogs),
    /// `ok ..`: what a turn of the frozen group did.
    Turned(Turned),
    /// `no ..`: why the line was refused.
    Refused(Refusal),
}

/// What a turn of the frozen group did.
#[derive(Clone, Copy, Debug, PartialEq, Eq)]
pub enum Turned {
    /// `ok idle`: no group is frozen.
    Idle,
    /// `ok write`: a block or a page was written.
    Write,
    /// `ok flush`: the group's leaves were flushed.
    Flush,
    /// `ok round N`: a leaf failed in the round of this number, and a further one was drawn.
    Round(Group),
    /// `ok committed N`: the record of this number is acknowledged.
    Committed(Group),
}
