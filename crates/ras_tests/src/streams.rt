//! Sources and sinks over memory and over std, some of which fail.

ghost use Rattle.std.specs.Prelude.{Some};

use ras_io::{
    MemSink, MemSource, ReadAllError, Sink, SinkFault, Source, StdSink, StdSource, read_all,
};
use std::io;
use std::io::{Cursor, Read, Write};
use std::test::Fail;

fn text(rt: &impl AllocGlobal, bytes: &[u8]) -> Result<Vec<u8>, std::alloc::AllocError> {
    Vec::from_slice(rt.alloc(), bytes)
}

#[test]
fn reads_to_the_end_in_small_pieces(rt: HostRuntime) -> Result<(), Fail> {
    let mut source = MemSource::new(text(&rt, b"one line\n")?, 2, Vec::new(rt.alloc()));
    let bytes = read_all(rt.alloc(), &mut source, 9)?;
    assert_eq!(rt; bytes.as_slice(), b"one line\n".as_slice());
    Ok(())
}

#[test]
fn says_that_a_source_is_too_long(rt: HostRuntime) -> Result<(), Fail> {
    let mut source = MemSource::new(text(&rt, b"one line\n")?, 100, Vec::new(rt.alloc()));
    assert!(rt;
        matches!(
            read_all(rt.alloc(), &mut source, 8),
            Err(ReadAllError::TooLong)
        )
    );
    Ok(())
}

#[test]
fn says_that_a_read_failed(rt: HostRuntime) -> Result<(), Fail> {
    let mut source = MemSource::new(text(&rt, b"one line\n")?, 4, vec![in rt.alloc(); 1]?);
    assert!(rt;
        matches!(
            read_all(rt.alloc(), &mut source, 80),
            Err(ReadAllError::ReadFault)
        )
    );
    let mut piece = [0u8; 8];
    assert_eq!(rt; source.read(&mut piece), Ok(4));
    assert_eq!(rt; piece, *b"line\0\0\0\0");
    Ok(())
}

#[test]
fn keeps_what_was_written_before_a_fault(rt: HostRuntime) -> Result<(), Fail> {
    let mut sink = MemSink::new(rt.alloc(), 8, vec![in rt.alloc(); 1]?)?;
    assert_eq!(rt; sink.write(b"abc"), Ok(()));
    assert_eq!(rt; sink.write(b"def"), Err(SinkFault));
    assert_eq!(rt; sink.write(b"defghi"), Err(SinkFault));
    assert_eq!(rt; sink.write(b"defgh"), Ok(()));
    assert_eq!(rt; sink.bytes(), b"abcdefgh".as_slice());
    Ok(())
}

#[test]
fn reads_what_a_reader_of_std_gives(rt: HostRuntime) -> Result<(), Fail> {
    let mut source = StdSource::new(Cursor::new(b"tail\n".as_slice()));
    let bytes = read_all(rt.alloc(), &mut source, 80)?;
    assert_eq!(rt; bytes.as_slice(), b"tail\n".as_slice());
    Ok(())
}

// a sink that takes only the first three bytes of its second write
#[derive(Drop)]
struct Partial {
    taken: Vec<u8>,
    writes: u64,
    faults: u64,
}

impl Sink for Partial {
    ghost written = { λ s. Some s.taken.items };

    ghost writes = { λ s. s.writes };

    ghost faults = { λ s. s.faults };

    fn write(&mut self, bytes: &[u8]) -> Result<(), SinkFault> {
        self.writes = self.writes.saturating_add(1);
        let count = if self.writes == 2 {
            bytes.len().min(3)
        } else {
            bytes.len()
        };
        let (front, rest) = bytes.split_at(count);
        if self.taken.extend_from_slice(front).is_ok() && rest.is_empty() {
            return Ok(());
        }
        self.faults = self.faults.saturating_add(1);
        Err(SinkFault)
    }
}

#[test]
fn takes_a_part_of_a_piece(rt: HostRuntime) -> Result<(), Fail> {
    let mut sink = Partial {
        taken: Vec::new(rt.alloc()),
        writes: 0,
        faults: 0,
    };
    assert_eq!(rt; sink.write(b"first\n"), Ok(()));
    assert_eq!(rt; sink.write(b"second\n"), Err(SinkFault));
    assert_eq!(rt; sink.taken.as_slice(), b"first\nsec".as_slice());
    Ok(())
}

// a writer that takes at most two bytes a call, and fails where its room is used up
#[derive(Drop)]
struct Narrow {
    taken: Vec<u8>,
    room: usize,
}

impl Write for Narrow {
    fn write(&mut self, buf: &[u8]) -> io::Result<usize> {
        if self.taken.len() >= self.room {
            return Err(io::Error::from(io::ErrorKind::StorageFull));
        }
        let count = buf.len().min(2);
        self.taken.extend_from_slice(&buf[..count])?;
        Ok(count)
    }

    fn flush(&mut self) -> io::Result<()> {
        Ok(())
    }
}

fn writer_for(rt: &impl AllocGlobal, room: usize) -> Narrow {
    Narrow {
        taken: Vec::new(rt.alloc()),
        room,
    }
}

#[test]
fn gathers_and_gives_in_order(rt: HostRuntime) -> Result<(), Fail> {
    let mut sink = StdSink::new(rt.alloc(), writer_for(&rt, 80))?;
    assert_eq!(rt; sink.write(b"one\n"), Ok(()));
    assert_eq!(rt; sink.write(b"two\n"), Ok(()));
    assert_eq!(rt; sink.flush(), Ok(()));
    assert_eq!(rt; sink.write(b"three\n"), Ok(()));
    assert_eq!(rt; sink.flush(), Ok(()));
    Ok(())
}

#[test]
fn says_that_a_flush_failed(rt: HostRuntime) -> Result<(), Fail> {
    let mut sink = StdSink::new(rt.alloc(), writer_for(&rt, 5))?;
    assert_eq!(rt; sink.write(b"one\ntwo\n"), Ok(()));
    assert_eq!(rt; sink.flush(), Err(SinkFault));
    assert_eq!(rt; sink.flush(), Err(SinkFault));
    Ok(())
}

// a writer that takes all that it is given, and whose flush fails
#[derive(Drop)]
struct Stuck;

impl Write for Stuck {
    fn write(&mut self, buf: &[u8]) -> io::Result<usize> {
        Ok(buf.len())
    }

    fn flush(&mut self) -> io::Result<()> {
        Err(io::Error::from(io::ErrorKind::StorageFull))
    }
}

#[test]
fn says_that_the_writer_did_not_flush(rt: HostRuntime) -> Result<(), Fail> {
    let mut sink = StdSink::new(rt.alloc(), Stuck)?;
    assert_eq!(rt; sink.write(b"one\n"), Ok(()));
    assert_eq!(rt; sink.flush(), Err(SinkFault));
    Ok(())
}

#[test]
fn passes_on_what_is_too_long_to_gather(rt: HostRuntime) -> Result<(), Fail> {
    let long = vec![in rt.alloc(); b'x'; 65537]?;
    let mut sink = StdSink::new(rt.alloc(), writer_for(&rt, 65537))?;
    assert_eq!(rt; sink.write(long.as_slice()), Ok(()));
    assert_eq!(rt; sink.write(b"y"), Ok(()));
    assert_eq!(rt; sink.flush(), Err(SinkFault));
    Ok(())
}

// a reader whose first call a signal interrupts
#[derive(Drop)]
struct Interrupted {
    calls: u32,
}

impl Read for Interrupted {
    fn read(&mut self, buf: &mut [u8]) -> io::Result<usize> {
        self.calls = self.calls.saturating_add(1);
        if self.calls == 1 {
            return Err(io::Error::from(io::ErrorKind::Interrupted));
        }
        if self.calls > 2 || buf.is_empty() {
            return Ok(0);
        }
        buf[0] = b'x';
        Ok(1)
    }
}

#[test]
fn reads_again_after_a_signal(rt: HostRuntime) -> Result<(), Fail> {
    let mut source = StdSource::new(Interrupted { calls: 0 });
    let bytes = read_all(rt.alloc(), &mut source, 80)?;
    assert_eq!(rt; bytes.as_slice(), b"x".as_slice());
    Ok(())
}

// a reader that fails for good, and tells how often it was asked
#[derive(Drop)]
struct Broken<'a> {
    calls: &'a mut u32,
}

impl Read for Broken<'_> {
    fn read(&mut self, _buf: &mut [u8]) -> io::Result<usize> {
        *self.calls = self.calls.saturating_add(1);
        Err(io::Error::from(io::ErrorKind::StorageFull))
    }
}

#[test]
fn asks_once_where_the_reader_fails(rt: HostRuntime) -> Result<(), Fail> {
    let mut calls = 0;
    let mut source = StdSource::new(Broken { calls: &mut calls });
    assert!(rt;
        matches!(
            read_all(rt.alloc(), &mut source, 80),
            Err(ReadAllError::ReadFault)
        )
    );
    assert_eq!(rt; calls, 1);
    Ok(())
}

#[test]
fn reads_a_text_of_two_pieces(rt: HostRuntime) -> Result<(), Fail> {
    let long = vec![in rt.alloc(); b'x'; 5000]?;
    let mut source = MemSource::new(long, 4500, Vec::new(rt.alloc()));
    let bytes = read_all(rt.alloc(), &mut source, 5000)?;
    assert_eq!(rt; bytes.len(), 5000);
    Ok(())
}
