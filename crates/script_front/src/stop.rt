//! What breaks a run off.
ghost use Rattle.std.specs.Prelude.{◌≡◌};

use crate::Status;

/// What breaks a run off before the input's end.
#[derive(Clone, Copy, Debug, PartialEq, Eq)]
pub(crate) enum Stop {
    Sink,
    Memory,
    TooLong,
}

impl Stop {
    ghost use Rattle.script_front.specs.SoFar.{status_of};

    /// How the run ends.
    pub fn status(self) -> Status
        ensures { result ≡ status_of self }
    {
        match self {
            Stop::Sink => Status::SinkFault,
            Stop::Memory => Status::Memory,
            Stop::TooLong => Status::LineTooLong,
        }
    }
}
