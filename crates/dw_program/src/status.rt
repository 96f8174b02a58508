//! How the program ends.

ghost use Rattle.std.specs.Prelude.{◌≡◌};
ghost use Rattle.dw_program.specs.Answers.{code_of};

/// How the program ends.
#[derive(Clone, Copy, Debug, PartialEq, Eq)]
pub enum Status {
    /// The sections were listed, or what they hold was summed up.
    Listed,
    /// The words aren't a command.
    Usage,
    /// The script or the listing was refused.
    ScriptRefused,
    /// Writing, linking or converting was refused.
    WriteRefused,
    /// The input couldn't be read.
    SourceFailed,
    /// The text couldn't be written.
    SinkFailed,
    /// No memory could be had.
    NoMemory,
    /// The input is longer than a script or a listing may be.
    TooLong,
}

impl Status {
    /// The program's exit status.
    pub fn code(self) -> u8
        ensures { result ≡ code_of self }
    {
        match self {
            Status::Listed => 0,
            Status::Usage => 1,
            Status::ScriptRefused => 2,
            Status::WriteRefused => 3,
            Status::SourceFailed => 4,
            Status::SinkFailed => 5,
            Status::NoMemory => 6,
            Status::TooLong => 7,
        }
    }
}
