//! Where bytes come from, and where they go.
ghost use Rattle.std.specs.Prelude.{◌≡◌, ◌<◌, ◌≤◌, ℕ, List, Option, IfOk, length};
ghost use Rattle.transyt_io.specs.Streams.{Reads, TellsLast, Writes, CountsFault, last_count};

/// A read or write that did not happen: no byte was taken or given.
#[derive(Clone, Copy, PartialEq, Eq)]
pub struct Failed;

/// Gives bytes in pieces.
///
/// A source has three meanings: the bytes left and the size of the last piece, each where the source tells it, and a
/// count of faults, which never falls and stays at its last value.
pub trait Source {
    /// The bytes that are left, where the source tells them.
    ghost left: { Self → Option (List ℕ) };

    /// How many bytes the last call of `read` gave, where the source tells it: 0 before the first, at the end and
    /// after Failed.
    ghost last: { Self → Option ℕ };

    /// How many calls failed.
    ghost faults: { Self → ℕ };

    /// Puts the next bytes into the front of `buf`, and returns how many: 0 only at the end. A call that returns Failed
    /// took no byte, and returns so only where the count of faults rose in it.
    fn read(&mut self, buf: &mut [u8]) -> Result<usize, Failed>
        requires { 0 < length buf.old }
        ensures bound { IfOk result (λ n. n ≤ length buf.new) }
        ensures bytes { Reads (left self.old) (left self.new) result buf.new }
        ensures last { TellsLast (last self.new) result }
        ensures cause { CountsFault (faults self.old) (faults self.new) result }
        ensures most { faults self.new ≤ last_count };
}

/// Takes bytes in pieces.
///
/// A sink has two meanings: the bytes written, where the sink tells them, and a count of faults, which never falls and
/// stays at its last value.
pub trait Sink {
    /// The bytes written, where the sink tells them.
    ghost written: { Self → Option (List ℕ) };

    /// How many calls failed.
    ghost faults: { Self → ℕ };

    /// Appends some first bytes of `piece`, one at least, and returns how many. A call that returns Failed appended
    /// nothing, and returns so only where the count of faults rose in it.
    fn write(&mut self, piece: &[u8]) -> Result<usize, Failed>
        requires { 0 < length piece.now }
        ensures bound { IfOk result (λ n. (0 < n) × (n ≤ length piece.now)) }
        ensures bytes { Writes (written self.old) (written self.new) result piece.now }
        ensures cause { CountsFault (faults self.old) (faults self.new) result }
        ensures most { faults self.new ≤ last_count };

    /// Takes a sentence for a person, which is no part of what is written: one that standard error may show. A sink
    /// that doesn't say otherwise drops it.
    fn remark(&mut self, _sentence: &[u8])
        ensures written { written self.new ≡ written self.old }
        ensures faults { faults self.new ≡ faults self.old }
    {}
}
