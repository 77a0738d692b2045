//! How a run ended.
ghost use Rattle.std.specs.Prelude.{◌≡◌};

/// How a run ended. Its number is the exit status of the program.
#[derive(Clone, Copy, Debug, PartialEq, Eq)]
pub enum Status {
    /// Each line has its reply, and the input was read to its end.
    Done,
    /// The words aren't a command of the program.
    Usage,
    /// A read of the input failed.
    SourceFault,
    /// A write of the output failed.
    SinkFault,
    /// There was no memory.
    Memory,
    /// A line has more than 16,384 bytes. The lines before it have their replies.
    LineTooLong,
}

impl Status {
    ghost use Rattle.script_front.specs.Codes.{code_of, name_of};

    /// The exit status of the program.
    pub fn code(self) -> u8
        ensures { result ≡ code_of self }
    {
        match self {
            Status::Done => 0,
            Status::Usage => 2,
            Status::SourceFault => 4,
            Status::SinkFault => 5,
            Status::Memory => 6,
            Status::LineTooLong => 8,
        }
    }

    /// The status's name, as the program prints it where it isn't `Done`.
    pub fn name(self) -> &'static str
        ensures { result.now ≡ name_of self }
    {
        match self {
            Status::Done => "Done",
            Status::Usage => "Usage",
            Status::SourceFault => "SourceFault",
            Status::SinkFault => "SinkFault",
            Status::Memory => "Memory",
            Status::LineTooLong => "LineTooLong",
        }
    }
}
