// How a run ends.
ghost use Rattle.std.specs.Prelude.{◌≡◌};
ghost use Rattle.srs_tool.specs.Exit.{code_of};

/// How a run ends; the exit statuses are 0 to 7 in this order.
#[derive(Clone, Copy, Debug, PartialEq, Eq)]
pub enum Status {
    /// The input was read to its end, and what it calls for was written.
    Done,
    /// A node of the file fails.
    Bad,
    /// The words are in no form; nothing was read or written.
    Usage,
    /// Want of memory.
    NoMemory,
    /// The source failed; nothing was written.
    ReadFault,
    /// The sink failed; a front of the text was written.
    WriteFault,
    /// The input is none that the command takes.
    Refused,
    /// The input is longer than the limit.
    TooLong,
}

/// The exit status.
pub fn code_of(status: Status) -> u8
    ensures { result ≡ code_of status }
{
    match status {
        Status::Done => 0,
        Status::Bad => 1,
        Status::Usage => 2,
        Status::NoMemory => 3,
        Status::ReadFault => 4,
        Status::WriteFault => 5,
        Status::Refused => 6,
        Status::TooLong => 7,
    }
}
