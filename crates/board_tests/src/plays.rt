//! Scripts that are played from memory, and looks at what was written.

use board_run::{Status, play};
use ras_io::{MemSink, MemSource};
use std::alloc::Global;
use std::test::Fail;

/// How many bytes are written at most.
const ROOM: usize = 65_536;

pub(crate) const PLAY: &[&str] = &["play"];

pub(crate) const TRACED: &[&str] = &["play", "--trace"];

pub(crate) const SHORT: &[&str] = &["play", "--short"];

pub(crate) const MOVE: &[&str] = &["move"];

/// A script and some lines that are written of it by these words, in this order.
pub(crate) type Case = (
    &'static str,
    &'static [&'static str],
    &'static [u8],
    &'static [&'static str],
);

// what comes of a text that is read so many bytes at a time, where the calls with these numbers fail
pub(crate) fn outcome(
    alloc: Global,
    words: &[&str],
    text: &[u8],
    most: usize,
    bad_read: Option<u64>,
    bad_write: Option<u64>,
) -> Result<(Status, Vec<u8>), Fail> {
    let mut bad_reads = Vec::new(alloc);
    if let Some(number) = bad_read {
        bad_reads.push(number)?;
    }
    let mut bad_writes = Vec::new(alloc);
    if let Some(number) = bad_write {
        bad_writes.push(number)?;
    }
    let mut source = MemSource::new(Vec::from_slice(alloc, text)?, most.max(1), bad_reads);
    let mut sink = MemSink::new(alloc, ROOM, bad_writes)?;
    let status = play(alloc, words, &mut source, &mut sink, Vec::new(alloc));
    Ok((status, Vec::from_slice(alloc, sink.bytes())?))
}

// what comes of a text where nothing fails
pub(crate) fn played(
    alloc: Global,
    words: &[&str],
    text: &[u8],
) -> Result<(Status, Vec<u8>), Fail> {
    outcome(alloc, words, text, 4096, None, None)
}

// whether these bytes and no others are written of a text
pub(crate) fn writes(
    alloc: Global,
    words: &[&str],
    text: &[u8],
    wanted: &[u8],
) -> Result<bool, Fail> {
    let (status, bytes) = played(alloc, words, text)?;
    Ok(status == Status::Ok && bytes.as_slice() == wanted)
}

// whether these lines stand in a text, in this order
pub(crate) fn has_lines(bytes: &[u8], wanted: &[&str]) -> bool {
    let Ok(text) = str::from_utf8(bytes) else {
        return false;
    };
    let mut found = 0;
    for line in text.lines() {
        if found < wanted.len() && line == wanted[found] {
            found += 1;
        }
    }
    found == wanted.len()
}

// how many lines end with these words
pub(crate) fn count_ends(bytes: &[u8], end: &str) -> usize {
    let Ok(text) = str::from_utf8(bytes) else {
        return 0;
    };
    let mut count: usize = 0;
    for line in text.lines() {
        if line.ends_with(end) {
            count = count.saturating_add(1);
        }
    }
    count
}

// whether these lines are written of a text, in this order
pub(crate) fn tells(
    alloc: Global,
    words: &[&str],
    text: &[u8],
    wanted: &[&str],
) -> Result<bool, Fail> {
    let (status, bytes) = played(alloc, words, text)?;
    Ok(status == Status::Ok && has_lines(bytes.as_slice(), wanted))
}
