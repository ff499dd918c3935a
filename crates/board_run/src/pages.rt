//! The pages to retire, each on a line of its own.

ghost use Rattle.std.specs.Prelude.{◌≡◌, ◌≤◌, [], length, map, Ok, OnOk, true, false};
ghost use Rattle.ras_io.specs.Causes.{HasCause, Puts, Rose};
ghost use Rattle.ras_text.specs.Lines.{text_of, sink_of, SameSink};
ghost use Rattle.board_plan.specs.Text.{bytes_of};
ghost use Rattle.board_report.specs.Writing.{Wrote, many};
ghost use Rattle.board_core.specs.Played.{own_run};
ghost use Rattle.board_run.specs.Retired.{page_line, page_lines};
ghost use Rattle.board_run.specs.Play.{is_silent, is_write_fault};
ghost use Rattle.board_run.specs.Parts.{Writes, state_of, status_of};

use crate::status::Status;
use board_core::Brief;
use ras_io::{Sink, SinkFault};
use ras_policy::{Page, pages};
use ras_text::{Line, put_dec, put_hex, put_word};
use std::alloc::Global;

/// A page and its numbers.
#[tactic(auto, unfolding(crate::specs::Retired::page_line))]
fn put_page<K: Sink>(line: &mut Line<'_, K>, page: &Page)
    requires { text_of line.old ≡ [] }
    ensures text { text_of line.new ≡ page_line page.now }
    ensures room { length (text_of line.new) ≤ 512 }
    ensures sink { sink_of line.new ≡ sink_of line.old }
    ensures same_sink { SameSink line.new line.old }
{
    put_word(line, b"page ");
    put_hex(line, page.page);
    put_word(line, b" corrected ");
    put_dec(line, u64::from(page.corrected));
    put_word(line, b" uncorrected ");
    put_dec(line, u64::from(page.uncorrected));
}

/// A line for each page, up to the first write that fails.
fn put_pages<K: Sink>(line: &mut Line<'_, K>, pages: &[Page]) -> Result<(), SinkFault>
    requires { text_of line.old ≡ [] }
    ensures wrote { Wrote (state_of K.written K.faults K.writes line.old (Ok tt))
        (state_of K.written K.faults K.writes line.new result) (map page_line pages.now) }
    ensures same_sink { SameSink line.new line.old }
{
    for page in pages {
        put_page(line, page);
        line.end()?;
    }
    Ok(())
}

/// Writes a line for each page; each line is one write. The one fault is the sink's own, of which its count tells; up
/// to there the lines were appended.
fn write_lines<K: Sink>(pages: &[Page], sink: &mut K) -> Result<(), SinkFault>
    ensures bytes { Puts (K.written sink.old) (K.written sink.new) result (bytes_of (map page_line pages.now)) }
    ensures cause { HasCause (K.faults sink.old) (K.faults sink.new) result }
    ensures writes { OnOk result (K.writes sink.new ≡ many (K.writes sink.old) (length (map page_line pages.now))) }
{
    let mut line = Line::new(sink);
    put_pages(&mut line, pages)
}

/// How a command ends by what came of its writes.
pub(crate) fn status_of(written: Result<(), SinkFault>) -> Status
    ensures { result ≡ status_of written }
{
    match written {
        Ok(()) => Status::Ok,
        Err(_) => Status::WriteFault,
    }
}

/// Writes the pages to retire by all copies that were published on a board. `NoMemory` comes where no room was found
/// for their list, and then nothing was written.
pub(crate) fn write_pages<K: Sink>(
    alloc: Global,
    threshold: u16,
    board: &Brief,
    sink: &mut K,
) -> Status
    ensures wrote { Writes (bytes_of (page_lines threshold (own_run board.now).published)) (K.written sink.old)
        (K.written sink.new) result }
    ensures fault { result ≡ Status.WriteFault → Rose (K.faults sink.old) (K.faults sink.new) }
    ensures kept { is_write_fault result ≡ false → K.faults sink.new ≡ K.faults sink.old }
    ensures silent { is_silent result ≡ true → sink.new ≡ sink.old }
{
    let _steps = board.steps();
    let Ok(list) = pages(alloc, board.published(), threshold) else {
        return Status::NoMemory;
    };
    status_of(write_lines(list.as_slice(), sink))
}
