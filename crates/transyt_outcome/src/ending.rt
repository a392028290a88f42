//! The status of a run by what ended it.
ghost use Rattle.std.specs.Prelude.{◌≡◌};
ghost use Rattle.transyt_outcome.specs.Outcome.{read_stop_status, status_if, stop_status};
ghost use Rattle.transyt_outcome.specs.Runs.{is_refusal};

use crate::status::Status;
use transyt_io::ReadStop;

/// How a line ends a run.
#[derive(Clone, Copy, Drop)]
pub enum Ending {
    /// All that was asked for is done: STOP.
    Stopped,
    /// The line is refused, and nothing after it is answered.
    Refused,
}

impl Ending {
    /// The status of the run that it ends.
    pub fn status(self) -> Status
        ensures { result ≡ status_if (is_refusal self) }
    {
        match self {
            Ending::Stopped => Status::Done,
            Ending::Refused => Status::DeckRefused,
        }
    }
}

/// Why an answer stopped.
#[derive(Clone, Copy, Drop)]
pub enum Stop {
    /// The sink failed.
    Write,
    /// Out of memory.
    Memory,
}

/// The status of a run that the end of the input ended: whether that is a refusal.
pub fn ended(refused: bool) -> Status
    ensures { result ≡ status_if refused }
{
    if refused {
        Status::DeckRefused
    } else {
        Status::Done
    }
}

/// The status of a run that an answer ended.
pub fn stopped(stop: Stop) -> Status
    ensures { result ≡ stop_status stop }
{
    match stop {
        Stop::Write => Status::WriteFault,
        Stop::Memory => Status::NoMemory,
    }
}

/// The status of a run that a read ended.
pub fn stopped_reading(stop: ReadStop) -> Status
    ensures { result ≡ read_stop_status stop }
{
    match stop {
        ReadStop::Fault => Status::ReadFault,
        ReadStop::TooLong => Status::TooLong,
    }
}
