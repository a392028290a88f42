//! Calls that take memory, the whole line at the first write, and ends of std that are interrupted.
ghost use Rattle.std.specs.Prelude.{None};

use crate::{
    Failed, Intake, Line, LineBuffer, LineReader, MemorySink, MemorySource, ReadStop, Sink,
    StdSink, StdSource, write_line,
};
use std::io;
use std::test::Fail;

#[test]
fn calls_succeed_where_there_is_memory(rt: HostRuntime) -> Result<(), Fail> {
    let alloc = rt.alloc();
    let mut source = MemorySource::new(b"one\ntwo".to_vec(alloc)?, 3, Vec::new(alloc));
    let mut reader = LineReader::open(alloc)?;
    assert_eq!(rt; reader.next(&mut source), Ok(Line::Text));
    assert!(rt; reader.line() == b"one".as_slice());
    let mut intake = Intake::open(alloc)?;
    assert_eq!(rt;
        intake.take_all(&mut StdSource::new(b"all".as_slice())),
        Ok(())
    );
    assert!(rt; intake.bytes() == b"all".as_slice());
    let mut line = LineBuffer::open(alloc)?;
    line.put(b"DONE\n");
    let mut sink = MemorySink::new(alloc, 5, 2, Vec::new(alloc))?;
    assert!(rt; write_line(&line, &mut sink).is_ok());
    Ok(())
}

/// Takes at most three bytes a call, and notes how many the first call got.
#[derive(Drop)]
struct Noting {
    first: Option<usize>,
}

impl Sink for Noting {
    ghost written = { λ _. None };

    ghost faults = { λ _. 0 };

    fn write(&mut self, piece: &[u8]) -> Result<usize, Failed> {
        if self.first.is_none() {
            self.first = Some(piece.len());
        }
        Ok(piece.len().min(3))
    }
}

#[test]
fn hands_the_whole_line_to_the_first_write(rt: HostRuntime) -> Result<(), Fail> {
    let mut line = LineBuffer::open(rt.alloc())?;
    line.put(b"QUEUE 17\n");
    let mut sink = Noting { first: None };
    assert!(rt; write_line(&line, &mut sink).is_ok());
    assert_eq!(rt; sink.first, Some(9));
    Ok(())
}

/// A reader and writer of std that is interrupted at its first call, and gives or takes all from then on.
#[derive(Drop)]
struct InterruptedOnce {
    calls: usize,
}

impl InterruptedOnce {
    /// Counts a call; the first is interrupted.
    fn call(&mut self) -> io::Result<()> {
        let calls = self.calls;
        self.calls = calls.saturating_add(1);
        if calls == 0 {
            return Err(io::ErrorKind::Interrupted.into());
        }
        Ok(())
    }
}

impl io::Read for InterruptedOnce {
    fn read(&mut self, buf: &mut [u8]) -> io::Result<usize> {
        self.call()?;
        buf.fill(b'\n');
        Ok(buf.len())
    }
}

impl io::Write for InterruptedOnce {
    fn write(&mut self, buf: &[u8]) -> io::Result<usize> {
        self.call()?;
        Ok(buf.len())
    }

    fn flush(&mut self) -> io::Result<()> {
        Ok(())
    }
}

#[test]
fn tries_nothing_of_std_again(rt: HostRuntime) -> Result<(), Fail> {
    let alloc = rt.alloc();
    let mut reader = LineReader::open(alloc)?;
    let mut interrupted = InterruptedOnce { calls: 0 };
    let answer = reader.next(&mut StdSource::new(&mut interrupted));
    assert_eq!(rt; answer, Err(ReadStop::Fault));
    assert!(rt; interrupted.calls == 1);
    let mut line = LineBuffer::open(alloc)?;
    line.put(b"DONE\n");
    let mut interrupted = InterruptedOnce { calls: 0 };
    assert!(rt; write_line(&line, &mut StdSink::new(&mut interrupted)).is_err());
    assert!(rt; interrupted.calls == 1);
    Ok(())
}
