//! The deck at the front of bytes, and where it ends.
ghost use Rattle.std.specs.Prelude.{◌≡◌, ◌≤◌, length, IsTrue, IfOk, IfErr, Ok};
ghost use Rattle.transyt_deck.specs.Deck.{may_finish, cut_at, cut_of, RefusesDeck};

use crate::reader::{CardReader, CardStop, Progress};
use std::alloc::Global;
use transyt_io::next_line;
use transyt_net::Net;

/// A deck at the front of bytes.
#[derive(Drop)]
pub struct Cut {
    /// The network of the deck.
    pub net: Net,
    /// The number of END's line, from 1.
    pub line: u32,
    /// How many bytes there are up to and with that line's end; all of them where that line has no line end.
    pub rest: usize,
}

/// Reads the deck at the front of `input`; the bytes after END's line aren't judged.
///
/// The refusal is that of the first card with a code, or code 21 at the number of lines plus 1 where the input
/// ends before END.
pub fn cut_deck(alloc: Global, input: &[u8]) -> Result<Cut, CardStop>
    requires { length input.now ≤ 4194304 }
    ensures cut { IfOk result (λ cut. cut_of input.now ≡ Ok cut) }
    ensures refused { IfErr result (λ stop. RefusesDeck input.now stop) }
    ensures line { IfOk result (λ cut. cut.line ≤ length input.now) }
    ensures rest { IfOk result (λ cut. cut.rest ≤ length input.now) }
{
    let mut reader = CardReader::new(alloc);
    let mut rest = input;
    while let Some((line, after)) = next_line(rest) {
        match reader.take(line) {
            Ok(Progress::More) => rest = after,
            Ok(Progress::Complete) => return close(reader, input.len() - after.len()),
            Err(stop) => {
                drop(reader);
                return Err(stop);
            }
        }
    }
    close(reader, input.len())
}

/// The cut of the deck that a reader has taken, with so many bytes.
fn close(reader: CardReader, rest: usize) -> Result<Cut, CardStop>
    requires { IsTrue (may_finish reader) }
    ensures { result ≡ cut_at reader.deck rest }
{
    let line = reader.taken();
    match reader.finish() {
        Ok(net) => Ok(Cut { net, line, rest }),
        Err(stop) => Err(stop),
    }
}
