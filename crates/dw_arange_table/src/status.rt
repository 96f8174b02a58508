//! How the program ends.

ghost use Rattle.std.specs.Prelude.{◌≡◌};
ghost use Rattle.dw_arange_table.specs.Runs.{code_of};

/// How the program ends.
#[derive(Clone, Copy, PartialEq, Eq)]
pub enum Status {
    /// What the words ask for was printed.
    Done,
    /// The words aren't a command.
    Usage,
    /// The listing was refused.
    ListingRefused,
    /// The table couldn't be made or written.
    TableRefused,
    /// The input couldn't be read.
    SourceFailed,
    /// The text couldn't be written.
    SinkFailed,
    /// No memory could be had.
    NoMemory,
    /// The input is longer than a listing may be.
    TooLong,
}

impl Status {
    /// The program's exit status.
    pub fn code(self) -> u8
        ensures { result ≡ code_of self }
    {
        match self {
            Status::Done => 0,
            Status::Usage => 1,
            Status::ListingRefused => 2,
            Status::TableRefused => 3,
            Status::SourceFailed => 4,
            Status::SinkFailed => 5,
            Status::NoMemory => 6,
            Status::TooLong => 7,
        }
    }
}
