//! Scripts that are played with devices.

use crate::counted::{Count, Counted, count};
use crate::outcomes::Devices;
use board_run::{Status, play};
use ras_device::{ErrorDevice, Scrubber, Silent};
use ras_io::{MemSink, MemSource};
use std::alloc::Global;
use std::sync::atomic::Ordering;
use std::test::Fail;

/// How many bytes are written at most.
const ROOM: usize = 65_536;

/// A hart unplugs the device whose error is being drained.
pub(crate) const UNPLUGGED: &[u8] = b"board 1 2
bank 0 local 1
record 0 0 0x95 0
op unplug 0
start 0 0 100
start 1 0x1000 100
reporter device 0 5
schedule r0 h0 h0 h1 r0
schedule h0 h0 h0 h0 h0 h0 h0
";

const UNPLUGGED_LINES: [&str; 5] = [
    "1 r0 error 0 0 ce 0 1 0x0 0x0 0x0 0x0 = wrote 1",
    "4 h1 unplug 0 yes",
    "11 h0 signal 0 1 none",
    "board 1 harts 2 banks 1 reporters 1 steps 11",
    "fates made 1 stray 0 disabled 0 counted 0 drained 1 overwritten 0 kept 0 stands 0",
];

/// Two reporters name devices in the other order.
pub(crate) const CROSSED: &[u8] = b"board 1 1
bank 0 local 1
record 0 0 0x95 0
reporter device 1 5
reporter device 0 5
";

const CROSSED_LINES: [&str; 4] = [
    "1 r1 error 0 0 ce 0 1 0x0 0x0 0x0 0x0 = wrote 1",
    "2 r1 error 0 0 ce 0 1 0x1000 0x1 0x0 0x1 = kept",
    "board 1 harts 1 banks 1 reporters 2 steps 2",
    "schedule r1 r1",
];

/// Whether these lines stand in a text, in this order.
fn has_lines(bytes: &[u8], wanted: &[&str]) -> bool {
    let Ok(text) = str::from_utf8(bytes) else {
        return false;
    };
    let mut found = 0;
    for line in text.lines() {
        if found < wanted.len() && line == wanted[found] {
            found += 1;
        }
    }
    found == wanted.len()
}

/// What came of a play.
#[derive(Drop)]
pub(crate) struct Outcome {
    status: Status,
    bytes: Vec<u8>,
}

impl Outcome {
    /// Whether all was written, with these lines in this order.
    pub(crate) fn has_lines(&self, wanted: &[&str]) -> bool {
        self.status == Status::Ok && has_lines(self.bytes.as_slice(), wanted)
    }
}

/// A device that counts.
pub(crate) fn counted<D: ErrorDevice>(
    inner: D,
    asks: &Count,
    drops: &Count,
) -> Result<Counted<D>, Fail> {
    Ok(Counted {
        inner,
        asks: asks.clone()?,
        drops: drops.clone()?,
    })
}

/// Plays a text with these devices.
pub(crate) fn played(
    alloc: Global,
    words: &[&str],
    text: &[u8],
    devices: Devices,
) -> Result<Outcome, Fail> {
    let mut source = MemSource::new(Vec::from_slice(alloc, text)?, 4096, Vec::new(alloc));
    let mut sink = MemSink::new(alloc, ROOM, Vec::new(alloc))?;
    let status = play(alloc, words, &mut source, &mut sink, devices);
    Ok(Outcome {
        status,
        bytes: Vec::from_slice(alloc, sink.bytes())?,
    })
}

/// What came of a trace with a scrubber of two errors and a silent device.
#[derive(Drop)]
struct Seen {
    played: Outcome,
    /// How often the scrubber was asked.
    asks: u64,
    /// How many of the two devices were dropped.
    drops: u64,
}

fn traced(alloc: Global, text: &[u8]) -> Result<Seen, Fail> {
    let asks = count(alloc)?;
    let drops = count(alloc)?;
    let mut devices: Devices = Vec::new(alloc);
    let first = counted(Scrubber::new(0, 0, 2), &asks, &drops)?;
    devices.push(Box::new(alloc, first)?)?;
    let second = counted(Silent::new(), &count(alloc)?, &drops)?;
    devices.push(Box::new(alloc, second)?)?;
    Ok(Seen {
        played: played(alloc, &["play", "--trace"], text, devices)?,
        asks: asks.load(Ordering::SeqCst),
        drops: drops.load(Ordering::SeqCst),
    })
}

#[test]
fn drops_a_device_whose_reporter_is_unplugged(rt: HostRuntime) -> Result<(), Fail> {
    let seen = traced(rt.alloc(), UNPLUGGED)?;
    assert!(rt; seen.played.has_lines(&UNPLUGGED_LINES));
    assert_eq!(rt; seen.asks, 1);
    assert_eq!(rt; seen.drops, 2);
    Ok(())
}

#[test]
fn asks_a_device_for_its_own_reporter(rt: HostRuntime) -> Result<(), Fail> {
    let seen = traced(rt.alloc(), CROSSED)?;
    assert!(rt; seen.played.has_lines(&CROSSED_LINES));
    assert_eq!(rt; seen.drops, 2);
    Ok(())
}

#[test]
fn drops_devices_that_no_reporter_names(rt: HostRuntime) -> Result<(), Fail> {
    let seen = traced(rt.alloc(), b"board 1 1\n")?;
    assert!(rt; seen.played.has_lines(&["schedule"]));
    assert_eq!(rt; seen.asks, 0);
    assert_eq!(rt; seen.drops, 2);
    Ok(())
}
