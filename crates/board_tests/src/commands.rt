//! Commands over bytes in memory.

use board_run::{Status, play};
use ras_io::{MemSink, MemSource};
use std::alloc::Global;
use std::test::Fail;

/// How many bytes are written at most.
const ROOM: usize = 65_536;

/// What comes of a text that is read so many bytes at a time, where the calls with these numbers fail.
pub(crate) fn outcome(
    alloc: Global,
    words: &[&str],
    text: &[u8],
    most: usize,
    bad_reads: &[u64],
    bad_writes: &[u64],
) -> Result<(Status, Vec<u8>), Fail> {
    let text = Vec::from_slice(alloc, text)?;
    let bad_reads = Vec::from_slice(alloc, bad_reads)?;
    let bad_writes = Vec::from_slice(alloc, bad_writes)?;
    let mut source = MemSource::new(text, most.max(1), bad_reads);
    let mut sink = MemSink::new(alloc, ROOM, bad_writes)?;
    let status = play(alloc, words, &mut source, &mut sink, Vec::new(alloc));
    Ok((status, Vec::from_slice(alloc, sink.bytes())?))
}

/// Whether these bytes and no others are written of a text.
pub(crate) fn writes(
    alloc: Global,
    words: &[&str],
    text: &[u8],
    wanted: &[u8],
) -> Result<bool, Fail> {
    let (status, bytes) = outcome(alloc, words, text, 4096, &[], &[])?;
    Ok(status == Status::Ok && bytes.as_slice() == wanted)
}

/// Whether these words are no command, so that nothing is written.
pub(crate) fn is_usage(alloc: Global, words: &[&str], text: &[u8]) -> Result<bool, Fail> {
    let (status, bytes) = outcome(alloc, words, text, 4096, &[], &[])?;
    Ok(status == Status::Usage && bytes.is_empty())
}
