//! Reports of boards.

use board_core::Board;
use board_report::report;
use ras_io::MemSink;
use std::alloc::Global;
use std::test::Fail;

/// The full report of a board.
pub(crate) fn report_of(alloc: Global, board: &Board) -> Result<Vec<u8>, Fail> {
    let mut sink = MemSink::new(alloc, 65_536, Vec::new(alloc))?;
    report(board, false, &mut sink)?;
    Ok(Vec::from_slice(alloc, sink.bytes())?)
}
