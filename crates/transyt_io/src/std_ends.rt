//! std's readers and writers as a source and a sink: the trusted edge.
ghost use Rattle.std.specs.Prelude.{◌≡◌, ◌<◌, ◌≤◌, None, Some, IfOk, IfSome, OnOk, OnErr, length};
ghost use Rattle.transyt_io.specs.Streams.{Reads, TellsLast, Writes, CountsFault, last_count};
ghost use Rattle.transyt_io.specs.Memory.{next_count};

use crate::streams::{Failed, Sink, Source};
use std::io::{Read, Write};
use std::marker::Model;
use std::snapshot::Snapshot;

/// A reader of std. Each error of it is Failed and counts; none is tried again.
///
/// Contracts see it as a `StdEnd`: the bytes left, where the reader told them when the source was made, and the count
/// of faults, which stays at the last value of a `u64`.
#[derive(Drop)]
pub struct StdSource<R: Read> {
    inner: R,
    first: Snapshot<R>,
    faults: u64,
}

impl<R: Read> Model for StdSource<R> {
    ghost use Rattle.std.specs.Prelude.{◌||◌, IsTrue, is_none, is_some};
    ghost use Rattle.std.specs.Option.{option_and};
    ghost use Rattle.transyt_io.specs.Streams.{StdEnd};

    ghost Value = { StdEnd };

    ghost view = { λ s. record {
      told = option_and (R.remaining s.first.value) (R.remaining s.inner);
      faults = s.faults;
    } };

    // where something was told at first, something is told now
    ghost invariant = { λ s. IsTrue
        (is_none (R.remaining s.first.value) || is_some (R.remaining s.inner)) };
}

impl<R: Read> StdSource<R> {
    /// A source of what `inner` gives.
    #[tactic(auto, using(crate::proofs::StdEnds::told_first, crate::proofs::StdEnds::still_first))]
    pub fn new(inner: R) -> StdSource<R>
        ensures { result ≡ record { told = R.remaining inner; faults = 0 } }
    {
        let first = Snapshot::of(&inner);
        StdSource {
            inner,
            first,
            faults: 0,
        }
    }

    /// The reader again.
    #[tactic(auto, using(crate::proofs::StdEnds::told_now))]
    pub fn into_inner(self) -> R
        ensures { IfSome self.told (λ bytes. R.remaining result ≡ Some bytes) }
    {
        self.inner
    }
}

impl<R: Read> Source for StdSource<R> {
    ghost left = { λ end. end.told };

    ghost last = { λ _. None };

    ghost faults = { λ end. end.faults };

    fn read(&mut self, buf: &mut [u8]) -> Result<usize, Failed>
        requires { 0 < length buf.old }
        ensures bound { IfOk result (λ n. n ≤ length buf.new) }
        ensures bytes { Reads self.old.told self.new.told result buf.new }
        ensures last { TellsLast None result }
        ensures cause { CountsFault self.old.faults self.new.faults result }
        ensures most { self.new.faults ≤ last_count }
        ensures ok { OnOk result (self.new.faults ≡ self.old.faults) }
        ensures failed { OnErr result (self.new.faults ≡ next_count self.old.faults) }
    {
        let faults = self.faults;
        match self.inner.read(buf) {
            Ok(n) => Ok(n),
            Err(_) => {
                self.faults = faults.saturating_add(1);
                Err(Failed)
            }
        }
    }
}

/// A writer of std. Each error of it, and a write that takes nothing, is Failed and counts; none is tried again.
///
/// Contracts see it as a `StdEnd`: the bytes that the writer holds, where it told them when the sink was made, and the
/// count of faults, which stays at the last value of a `u64`.
#[derive(Drop)]
pub struct StdSink<W: Write> {
    inner: W,
    first: Snapshot<W>,
    faults: u64,
}

impl<W: Write> Model for StdSink<W> {
    ghost use Rattle.std.specs.Prelude.{◌||◌, IsTrue, is_none, is_some};
    ghost use Rattle.std.specs.Option.{option_and};
    ghost use Rattle.transyt_io.specs.Streams.{StdEnd};

    ghost Value = { StdEnd };

    ghost view = { λ s. record {
      told = option_and (W.contents s.first.value) (W.contents s.inner);
      faults = s.faults;
    } };

    // where something was told at first, something is told now
    ghost invariant = { λ s. IsTrue
        (is_none (W.contents s.first.value) || is_some (W.contents s.inner)) };
}

impl<W: Write> StdSink<W> {
    /// A sink into `inner`.
    #[tactic(auto, using(crate::proofs::StdEnds::told_first, crate::proofs::StdEnds::still_first))]
    pub fn new(inner: W) -> StdSink<W>
        ensures { result ≡ record { told = W.contents inner; faults = 0 } }
    {
        let first = Snapshot::of(&inner);
        StdSink {
            inner,
            first,
            faults: 0,
        }
    }

    /// The writer again.
    #[tactic(auto, using(crate::proofs::StdEnds::told_now))]
    pub fn into_inner(self) -> W
        ensures { IfSome self.told (λ bytes. W.contents result ≡ Some bytes) }
    {
        self.inner
    }
}

impl<W: Write> Sink for StdSink<W> {
    ghost written = { λ end. end.told };

    ghost faults = { λ end. end.faults };

    fn write(&mut self, piece: &[u8]) -> Result<usize, Failed>
        requires { 0 < length piece.now }
        ensures bound { IfOk result (λ n. (0 < n) × (n ≤ length piece.now)) }
        ensures bytes { Writes self.old.told self.new.told result piece.now }
        ensures cause { CountsFault self.old.faults self.new.faults result }
        ensures most { self.new.faults ≤ last_count }
        ensures ok { OnOk result (self.new.faults ≡ self.old.faults) }
        ensures failed { OnErr result (self.new.faults ≡ next_count self.old.faults) }
    {
        let faults = self.faults;
        match self.inner.write(piece) {
            Ok(n) if n > 0 => Ok(n),
            _ => {
                self.faults = faults.saturating_add(1);
                Err(Failed)
            }
        }
    }
}
