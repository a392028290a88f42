//! How a run ended.
ghost use Rattle.std.specs.Prelude.{◌≡◌};
ghost use Rattle.transyt_outcome.specs.Outcome.{exit_number};

/// How a run ended.
#[derive(Clone, Copy, PartialEq, Eq, Drop)]
pub enum Status {
    /// The input was read to its end, or a line ended the run, or the text of the words was written.
    Done,
    /// The words are none that the program takes; nothing was read or written.
    BadWords,
    /// The deck, or the table after it, was refused; the refusal is the last line written.
    DeckRefused,
    /// The source failed; what was written answers the whole lines that were read.
    ReadFault,
    /// The sink failed.
    WriteFault,
    /// Out of memory; nothing was written.
    NoMemory,
    /// The input has more than 4,194,304 bytes, and no whole line of the first 4,194,304 ends the run.
    TooLong,
}

impl Status {
    /// The exit number of the program.
    pub fn code(self) -> u8
        ensures { result ≡ exit_number self }
    {
        match self {
            Status::Done => 0,
            Status::BadWords => 1,
            Status::DeckRefused => 2,
            Status::ReadFault => 3,
            Status::WriteFault => 4,
            Status::NoMemory => 5,
            Status::TooLong => 6,
        }
    }
}
