//! Sources and sinks that fail, words that are no command, and inputs that are too long.

ghost use Rattle.std.specs.Prelude.{Some};

use crate::first::{MOVED, REPORT, SCRIPT, traced};
use crate::plays::{MOVE, PLAY, SHORT, TRACED, outcome, played};
use board_plan::LineFault;
use board_run::{Status, play};
use ras_io::{MemSource, Sink, SinkFault};
use std::alloc::{AllocError, Global};
use std::test::Fail;

// the first so many lines of a text
fn front(alloc: Global, text: &[u8], count: usize) -> Result<Vec<u8>, AllocError> {
    let mut lines = Vec::new(alloc);
    let mut ends = 0;
    for byte in text {
        if ends < count {
            lines.push(*byte)?;
            if *byte == b'\n' {
                ends += 1;
            }
        }
    }
    Ok(lines)
}

// whether the lines before the write with this number were written, and it is told that this write failed
fn stops_at(alloc: Global, words: &[&str], whole: &[u8], number: usize) -> Result<bool, Fail> {
    let (status, bytes) = outcome(alloc, words, SCRIPT, 4096, None, Some(number as u64))?;
    let wanted = front(alloc, whole, number)?;
    Ok(status == Status::WriteFault && bytes.as_slice() == wanted.as_slice())
}

#[test]
fn writes_nothing_after_a_read_that_failed(rt: HostRuntime) -> Result<(), Fail> {
    for number in 0..=SCRIPT.len() {
        let (status, bytes) = outcome(rt.alloc(), TRACED, SCRIPT, 1, Some(number as u64), None)?;
        assert_eq!(rt; status, Status::ReadFault);
        assert!(rt; bytes.is_empty());
    }
    Ok(())
}

#[test]
fn writes_the_lines_before_a_write_that_failed(rt: HostRuntime) -> Result<(), Fail> {
    let traced = traced(rt.alloc())?;
    for number in 0..7 {
        assert!(rt;
            stops_at(rt.alloc(), PLAY, REPORT, number)?,
            "report {number}"
        );
    }
    for number in 0..14 {
        assert!(rt;
            stops_at(rt.alloc(), TRACED, traced.as_slice(), number)?,
            "trace {number}"
        );
    }
    for number in 0..10 {
        assert!(rt; stops_at(rt.alloc(), MOVE, MOVED, number)?, "move {number}");
    }
    Ok(())
}

// a sink that takes only so many bytes in all
#[derive(Drop)]
struct Narrow {
    taken: Vec<u8>,
    room: usize,
    writes: u64,
    faults: u64,
}

impl Sink for Narrow {
    ghost written = { λ s. Some s.taken.items };

    ghost writes = { λ s. s.writes };

    ghost faults = { λ s. s.faults };

    fn write(&mut self, bytes: &[u8]) -> Result<(), SinkFault> {
        self.writes = self.writes.saturating_add(1);
        let count = bytes.len().min(self.room.saturating_sub(self.taken.len()));
        let (front, rest) = bytes.split_at(count);
        if self.taken.extend_from_slice(front).is_ok() && rest.is_empty() {
            return Ok(());
        }
        self.faults = self.faults.saturating_add(1);
        Err(SinkFault)
    }
}

#[test]
fn writes_a_front_to_a_sink_that_is_full(rt: HostRuntime) -> Result<(), Fail> {
    for room in 0..REPORT.len() {
        let text = Vec::from_slice(rt.alloc(), SCRIPT)?;
        let mut source = MemSource::new(text, 4096, Vec::new(rt.alloc()));
        let mut sink = Narrow {
            taken: Vec::new(rt.alloc()),
            room,
            writes: 0,
            faults: 0,
        };
        let status = play(
            rt.alloc(),
            PLAY,
            &mut source,
            &mut sink,
            Vec::new(rt.alloc()),
        );
        assert_eq!(rt; status, Status::WriteFault);
        assert!(rt; sink.taken.as_slice() == &REPORT[..room]);
    }
    Ok(())
}

#[test]
fn knows_no_other_command(rt: HostRuntime) -> Result<(), Fail> {
    let lists: [&[&str]; 12] = [
        &[],
        &[""],
        &["Play"],
        &["pla"],
        &["play", "x"],
        &["play", "trace"],
        &["play", "--trace", "--short"],
        &["play", "--trace", "--trace"],
        &["--trace"],
        &["move", "--short"],
        &["run"],
        &["help"],
    ];
    for words in lists {
        let (status, bytes) = played(rt.alloc(), words, SCRIPT)?;
        assert_eq!(rt; status, Status::Usage);
        assert!(rt; bytes.is_empty());
    }
    Ok(())
}

#[test]
fn says_that_an_input_is_too_long(rt: HostRuntime) -> Result<(), Fail> {
    let no_board = Status::BadScript {
        line: 1_048_577,
        kind: LineFault::Head,
    };
    for (count, answer) in [(1_048_577, Status::TooLong), (1_048_576, no_board)] {
        let text = vec![in rt.alloc(); b'\n'; count]?;
        for words in [PLAY, TRACED, SHORT, MOVE] {
            let (status, bytes) = outcome(rt.alloc(), words, text.as_slice(), 65_536, None, None)?;
            assert_eq!(rt; status, answer);
            assert!(rt; bytes.is_empty());
        }
    }
    Ok(())
}
