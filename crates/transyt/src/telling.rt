//! A sink whose remarks go to standard error.
ghost use Rattle.std.specs.Prelude.{◌<◌, ◌≤◌, IfOk, length};
ghost use Rattle.transyt_io.specs.Streams.{Writes, CountsFault, last_count};

use std::str;
use transyt_io::{Failed, Sink};

/// A sink over another, which tells standard error each remark. A fault of standard error changes nothing.
#[derive(Drop)]
pub(crate) struct Telling<'a, R, K> {
    /// The runtime, which has standard error.
    pub(crate) rt: &'a R,
    /// The sink that is written.
    pub(crate) sink: K,
}

impl<'a, R: Eprint, K: Sink> Sink for Telling<'a, R, K> {
    ghost written = { λ s. K.written s.sink };

    ghost faults = { λ s. K.faults s.sink };

    fn write(&mut self, piece: &[u8]) -> Result<usize, Failed> {
        self.sink.write(piece)
    }

    fn remark(&mut self, sentence: &[u8]) {
        let text = str::from_utf8(sentence).unwrap_or("");
        let _ = eprintln!(self.rt; "{text}");
    }
}
