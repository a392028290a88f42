//! A sink that keeps remarks.
ghost use Rattle.std.specs.Prelude.{◌<◌, ◌≤◌, IfOk, length};
ghost use Rattle.transyt_io.specs.Streams.{Writes, CountsFault, last_count};

use transyt_io::{Failed, Sink};

/// A sink over another, which keeps each remark as a line.
#[derive(Drop)]
pub(crate) struct Hearing<K> {
    /// The sink that is written.
    pub(crate) sink: K,
    /// The remarks, each with a line end. One for which there is no memory is left out.
    pub(crate) heard: Vec<u8>,
}

impl<K: Sink> Sink for Hearing<K> {
    ghost written = { λ s. K.written s.sink };

    ghost faults = { λ s. K.faults s.sink };

    fn write(&mut self, piece: &[u8]) -> Result<usize, Failed> {
        self.sink.write(piece)
    }

    fn remark(&mut self, sentence: &[u8]) {
        if self.heard.extend_from_slice(sentence).is_ok() {
            let _ = self.heard.push(b'\n');
        }
    }
}
