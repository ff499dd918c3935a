//! A source and a sink over std's readers and writers, as standard input and output.
ghost use Rattle.std.specs.Prelude.{◌≡◌, ◌≤◌, [], ◌++◌, length, take, IfOk, OnOk, OnErr, IsTrue, if◌then◌else◌};
ghost use Rattle.std.specs.Io.{ReadsAtMost};
ghost use Rattle.std.specs.Io.KnownBytes.{ReadConsumes, Appends, Keeps};
ghost use Rattle.ras_io.specs.Causes.{HasCause, Puts, one_more};
ghost use Rattle.ras_io.specs.Std.{written_to};

use crate::faults::{NoMemory, SinkFault, SourceFault};
use crate::outside::{Sink, Source};
use std::alloc::Global;
use std::io::{ErrorKind, Read, Write};
use std::marker::Model;

// how often a call that a signal interrupted is made again
const TRIES: u32 = 1_000_000;

// the most that a sink gathers before it writes
const GATHERED: usize = 65536;

/// A source over a reader of std, as `rt.reader()` for standard input. It is seen as an
/// `Incoming`, and has left what the reader has. A call that a signal interrupted is made again.
#[derive(Drop)]
pub struct StdSource<R: Read + Drop> {
    from: R,
    faults: u64,
}

impl<R: Read + Drop> Model for StdSource<R> {
    ghost use Rattle.ras_io.specs.Std.{Incoming};

    ghost Value = { Incoming };

    ghost view = { λ s. record { left = R.remaining s.from; faults = s.faults } };
}

impl<R: Read + Drop> StdSource<R> {
    /// A source whose count of faults is 0.
    pub fn new(from: R) -> StdSource<R>
        ensures { result ≡ record { left = R.remaining from; faults = 0 } }
    {
        StdSource { from, faults: 0 }
    }
}

// one read, made again where a signal interrupted it
fn read_some<R: Read>(from: &mut R, buf: &mut [u8]) -> Result<usize, SourceFault>
    ensures bound { ReadsAtMost result buf.new }
    ensures bytes { ReadConsumes (R.remaining from.old) (R.remaining from.new) result buf.new }
{
    for _ in 0..TRIES {
        match from.read(buf) {
            Ok(count) => return Ok(count),
            Err(e) => {
                if e.kind() != ErrorKind::Interrupted {
                    return Err(SourceFault);
                }
            }
        }
    }
    Err(SourceFault)
}

impl<R: Read + Drop> Source for StdSource<R> {
    ghost left = { λ s. s.left };

    ghost faults = { λ s. s.faults };

    fn read(&mut self, buf: &mut [u8]) -> Result<usize, SourceFault> {
        match read_some(&mut self.from, buf) {
            Ok(count) => Ok(count),
            Err(fault) => {
                self.faults = self.faults.saturating_add(1);
                Err(fault)
            }
        }
    }
}

/// A sink over a writer of std, as `io::writer(&rt)` for standard output. It gathers up to 64 KiB
/// and writes them at once. It is seen as an `Outgoing`. What waits goes out by `flush`, which its
/// owner has to call at the end.
#[derive(Drop)]
pub struct StdSink<W: Write + Drop> {
    to: W,
    gathered: Vec<u8>,
    sent: usize,
    writes: u64,
    faults: u64,
}

impl<W: Write + Drop> Model for StdSink<W> {
    ghost use Rattle.std.specs.Prelude.{◌≤◌, length, drop};
    ghost use Rattle.ras_io.specs.Std.{Outgoing};

    ghost Value = { Outgoing };

    ghost view = { λ s. record {
      out = W.contents s.to;
      waiting = drop s.sent s.gathered.items;
      writes = s.writes;
      faults = s.faults;
    } };

    ghost invariant = { λ s. (s.sent ≤ length s.gathered.items)
        × (length s.gathered.items ≤ 65536) };
}

impl<W: Write + Drop> StdSink<W> {
    /// A sink with nothing waiting, whose counts of writes and of faults are 0. `NoMemory` comes where no room was
    /// found for what it gathers.
    pub fn new(alloc: Global, to: W) -> Result<StdSink<W>, NoMemory>
        ensures { IfOk result (λ s. s ≡ record { out = W.contents to; waiting = []; writes = 0; faults = 0 }) }
    {
        let gathered = Vec::with_capacity(alloc, GATHERED).map_err(|_| NoMemory)?;
        Ok(StdSink {
            to,
            gathered,
            sent: 0,
            writes: 0,
            faults: 0,
        })
    }

    /// Gives the writer what waits. `SinkFault` comes only where the writer failed or took nothing,
    /// and then the count rose; what it didn't take waits on.
    pub fn flush(&mut self) -> Result<(), SinkFault>
        ensures bytes { Keeps (written_to self.old) (written_to self.new) }
        ensures empty { OnOk result (self.new.waiting ≡ []) }
        ensures cause { HasCause self.old.faults self.new.faults result }
        ensures once { OnErr result (self.new.faults ≡ one_more self.old.faults) }
        ensures writes { self.new.writes ≡ self.old.writes }
    {
        let (_, waiting) = self.gathered.as_slice().split_at(self.sent);
        let given = hand_out(&mut self.to, waiting);
        self.sent += given.count;
        if given.is_whole {
            return Ok(());
        }
        self.faults = self.faults.saturating_add(1);
        Err(SinkFault)
    }

    // lets the bytes wait, where there is room for them
    fn gather(&mut self, bytes: &[u8]) -> bool
        ensures { self.new ≡ (if result then record self.old { waiting = self.old.waiting ++ bytes.now }
            else self.old) }
    {
        if bytes.len() > GATHERED - self.gathered.len() {
            return false;
        }
        match self.gathered.extend_from_slice(bytes) {
            Ok(()) => true,
            Err(_) => false,
        }
    }

    // forgets what was given to the writer
    fn clear(&mut self)
        requires { self.old.waiting ≡ [] }
        ensures { self.new ≡ self.old }
    {
        self.sent = 0;
        self.gathered.clear();
    }

    // gives the bytes to the writer at once
    fn pass_on(&mut self, bytes: &[u8]) -> Result<(), SinkFault>
        requires { self.old.waiting ≡ [] }
        ensures bytes { Puts (written_to self.old) (written_to self.new) result bytes.now }
        ensures cause { HasCause self.old.faults self.new.faults result }
        ensures writes { self.new.writes ≡ self.old.writes }
    {
        if send(&mut self.to, bytes) == bytes.len() {
            return Ok(());
        }
        self.faults = self.faults.saturating_add(1);
        Err(SinkFault)
    }
}

// how many bytes one write took, or 0 where it failed
fn write_some<W: Write>(to: &mut W, bytes: &[u8]) -> usize
    ensures bound { result ≤ length bytes.now }
    ensures bytes { Appends (W.contents to.old) (W.contents to.new) (take result bytes.now) }
{
    for _ in 0..TRIES {
        match to.write(bytes) {
            Ok(count) => return count,
            Err(e) => {
                if e.kind() != ErrorKind::Interrupted {
                    return 0;
                }
            }
        }
    }
    0
}

// how many of the bytes the writer took: all of them, or those before it failed
fn send<W: Write>(to: &mut W, bytes: &[u8]) -> usize
    ensures bound { result ≤ length bytes.now }
    ensures bytes { Appends (W.contents to.old) (W.contents to.new) (take result bytes.now) }
{
    let mut sent = 0;
    while sent < bytes.len() {
        let (_, rest) = bytes.split_at(sent);
        let count = write_some(to, rest);
        if count == 0 {
            return sent;
        }
        sent += count;
    }
    sent
}

// what a writer took of some bytes, and whether all went well
#[derive(Clone, Copy)]
struct Given {
    count: usize,
    is_whole: bool,
}

// gives bytes to the writer, and has it write them
fn hand_out<W: Write>(to: &mut W, bytes: &[u8]) -> Given
    ensures bound { result.count ≤ length bytes.now }
    ensures whole { IsTrue result.is_whole → result.count ≡ length bytes.now }
    ensures bytes { Appends (W.contents to.old) (W.contents to.new) (take result.count bytes.now) }
{
    let count = send(to, bytes);
    if count < bytes.len() {
        return Given {
            count,
            is_whole: false,
        };
    }
    match to.flush() {
        Ok(()) => Given {
            count,
            is_whole: true,
        },
        Err(_) => Given {
            count,
            is_whole: false,
        },
    }
}

impl<W: Write + Drop> Sink for StdSink<W> {
    ghost written = { written_to };

    ghost writes = { λ s. s.writes };

    ghost faults = { λ s. s.faults };

    fn write(&mut self, bytes: &[u8]) -> Result<(), SinkFault> {
        self.writes = self.writes.saturating_add(1);
        if self.gather(bytes) {
            return Ok(());
        }
        self.flush()?;
        self.clear();
        if self.gather(bytes) {
            return Ok(());
        }
        self.pass_on(bytes)
    }
}
