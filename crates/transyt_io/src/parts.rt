//! Texts of several parts, such as a line for each link.
ghost use Rattle.std.specs.Prelude.{◌≡◌, ◌<◌, ℕ, List, flat_map};
ghost use Rattle.std.specs.List.{range_with_len};
ghost use Rattle.transyt_io.specs.Prints.{PrintsOn};

use crate::{Failed, LineBuffer, Sink};

/// A text of several parts, such as a line for each link: how many there are, and the text of each by its place from 0.
pub trait Parts {
    /// The number of parts.
    ghost number: { Self → ℕ };

    /// The text of the part at a place.
    ghost text: { Self → ℕ → List ℕ };

    /// The number of parts.
    fn count(&self) -> usize
        ensures { result ≡ number self.now };

    /// Writes the part at a place. On Failed some first bytes of it were written.
    fn print<K: Sink>(
        &self,
        place: usize,
        line: &mut LineBuffer,
        sink: &mut K,
    ) -> Result<(), Failed>
        requires { place < number self.now }
        ensures { PrintsOn K.written K.faults sink.old sink.new result (text self.now place) };
}

/// Writes all parts, one after another. On Failed some first bytes of them were written.
pub fn print_parts<P: Parts, K: Sink>(
    parts: &P,
    line: &mut LineBuffer,
    sink: &mut K,
) -> Result<(), Failed>
    ensures { PrintsOn K.written K.faults sink.old sink.new result
        (flat_map (P.text parts.now) (range_with_len 0 (P.number parts.now))) }
{
    for place in 0..parts.count() {
        parts.print(place, line, sink)?;
    }
    Ok(())
}
