//! The end of the program: its number, and its sentence on standard error.
ghost use Rattle.std.specs.Prelude.{◌≡◌, ◌≢◌, ◌≤◌, ◌↔◌, Ok, IfOk, IfErr, IsSome};
ghost use Rattle.transyt_outcome.specs.Outcome.{exit_number};
ghost use Rattle.transyt.specs.Program.{number_without_words};

use std::io::ErrorKind;
use transyt_outcome::Status;

/// The exit number of the program: that of the status; where the words could not be had, 5 out of memory and 7 for
/// another cause.
#[tactic(auto, using(crate::proofs::GivenLaws::other_number))]
pub fn exit_of(ended: Result<Status, ErrorKind>) -> u8
    ensures status { IfOk ended (λ status. result ≡ exit_number status) }
    ensures no_words { IfErr ended (λ cause. result ≡ number_without_words cause) }
    ensures most { result ≤ 7 }
{
    match ended {
        Ok(status) => status.code(),
        Err(ErrorKind::OutOfMemory) => 5,
        Err(_) => 7,
    }
}

/// One sentence for standard error on how the program ended, or none where all was done.
pub fn sentence_of(ended: Result<Status, ErrorKind>) -> Option<&'static str>
    ensures told { IsSome result ↔ (ended ≢ Ok Status.Done) }
{
    match ended {
        Ok(Status::Done) => None,
        Ok(Status::BadWords) => Some(WORDS),
        Ok(Status::DeckRefused) => Some(
            "The deck was refused: the last line that was written names its line and the code of the fault.",
        ),
        Ok(Status::ReadFault) => Some("The input could not be read to its end."),
        Ok(Status::WriteFault) => Some("The output could not be written."),
        Ok(Status::TooLong) => Some("The input has more than 4,194,304 bytes."),
        Ok(Status::NoMemory) | Err(ErrorKind::OutOfMemory) => Some("There is not enough memory."),
        Err(_) => Some("The words could not be read: each has to be text."),
    }
}

/// The sentence for words that the program doesn't take.
const WORDS: &str = "\
The program takes these words:

  run [W]                reads a deck and then commands, and answers each line as it comes
  brief SEED NODES [W]   climbs once on the network that make writes, and tells the outcome in one line
  make SEED NODES        writes the deck of a network of so many nodes
  counts                 reads a deck and a table of counts, and writes commands for run
  equisat                reads a deck, and writes for each node the greens that its links saturate alike
  cycles W LOW HIGH BY   reads a deck, climbs at each cycle time from LOW to HIGH seconds, and writes the best as a deck
  starts W SEED COUNT [FROM]   reads a deck, climbs from COUNT starts with drawn offsets, from number FROM on (0 if left
                         out), and writes the best as a deck
  scan W LOW HIGH BY     reads a deck, climbs at each cycle time with the deck's own steps, and tells the best
  audit                  reads a deck and its certificate, and tells whether it holds
  version                says which program this is

  cycles keeps seconds: intergreens and least greens last as long in every cycle, and so there are more steps in a longer
  one. scan keeps steps: they are as many in every cycle, so intergreens last longer in a longer one.

  W workers, 1 to 8, climb at once (1 if left out); SEED is at most 999999999, NODES 1 to 200, COUNT 1 to 1000, and COUNT and
  FROM together at most 1000. LOW and HIGH are 30 to 240, BY is 1 to 210.";
