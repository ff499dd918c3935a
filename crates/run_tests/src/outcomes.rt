//! What comes of a script that is run or played.

use board_lock::Gate;
use board_run::{Status, play, run};
use ras_device::ErrorDevice;
use ras_io::{MemSink, MemSource};
use std::alloc::Global;
use std::sync::Wait;
use std::test::Fail;
use std::thread::Threads;

/// How many bytes are written at most.
const ROOM: usize = 65_536;

/// Devices as they are handed in.
pub(crate) type Devices = Vec<Box<dyn ErrorDevice + Send>>;

/// What came of a script.
#[derive(Drop)]
pub(crate) struct Seen {
    pub(crate) status: Status,
    pub(crate) bytes: Vec<u8>,
}

/// Runs a text.
pub(crate) fn run_of<R: Threads + Wait + Sync, G: Gate + Sync>(
    rt: &R,
    alloc: Global,
    text: &[u8],
    devices: Devices,
    gate: &G,
) -> Result<Seen, Fail> {
    let mut source = MemSource::new(Vec::from_slice(alloc, text)?, 4096, Vec::new(alloc));
    let mut sink = MemSink::new(alloc, ROOM, Vec::new(alloc))?;
    let status = run(rt, alloc, &["run"], &mut source, &mut sink, devices, gate);
    Ok(Seen {
        status,
        bytes: Vec::from_slice(alloc, sink.bytes())?,
    })
}

/// Plays a text.
pub(crate) fn play_of(alloc: Global, text: &[u8], devices: Devices) -> Result<Seen, Fail> {
    let mut source = MemSource::new(Vec::from_slice(alloc, text)?, 4096, Vec::new(alloc));
    let mut sink = MemSink::new(alloc, ROOM, Vec::new(alloc))?;
    let status = play(alloc, &["play"], &mut source, &mut sink, devices);
    Ok(Seen {
        status,
        bytes: Vec::from_slice(alloc, sink.bytes())?,
    })
}

/// Whether these lines stand in a text, in this order.
fn has_lines(bytes: &[u8], wanted: &[&str]) -> bool {
    let Ok(text) = str::from_utf8(bytes) else {
        return false;
    };
    let mut found = 0;
    for line in text.lines() {
        if found < wanted.len() && line == wanted[found] {
            found += 1;
        }
    }
    found == wanted.len()
}

impl Seen {
    /// Whether all was written, with these lines in this order.
    pub(crate) fn has_lines(&self, wanted: &[&str]) -> bool {
        self.status == Status::Ok && has_lines(self.bytes.as_slice(), wanted)
    }

    /// Whether all was written, and it was these bytes.
    pub(crate) fn is(&self, bytes: &[u8]) -> bool {
        self.status == Status::Ok && self.bytes.as_slice() == bytes
    }
}

/// A text with the schedule lines of a report at its end.
pub(crate) fn with_schedule(alloc: Global, text: &[u8], report: &[u8]) -> Result<Vec<u8>, Fail> {
    let mut all = Vec::from_slice(alloc, text)?;
    for line in report.split(|byte| *byte == b'\n') {
        if line.starts_with(b"schedule") {
            all.extend_from_slice(line)?;
            all.push(b'\n')?;
        }
    }
    Ok(all)
}

/// Whether one word stands in a text before the first of another.
pub(crate) fn comes_before(text: &[u8], one: &[u8], other: &[u8]) -> bool {
    for word in text.split(|byte| *byte == b' ' || *byte == b'\n') {
        if word == one {
            return true;
        }
        if word == other {
            return false;
        }
    }
    false
}
