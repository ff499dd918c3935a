//! The reports and the trace of a board's own run.

ghost use Rattle.std.specs.Prelude.{◌≡◌, length, OnOk};
ghost use Rattle.ras_io.specs.Causes.{HasCause, Puts};
ghost use Rattle.board_plan.specs.Text.{trace_lines};
ghost use Rattle.board_core.specs.Played.{own_run};
ghost use Rattle.board_report.specs.Reports.{report_bytes, report_lines, trace_bytes};
ghost use Rattle.board_report.specs.Writing.{many};

use crate::run_texts::{write_full, write_short, write_trace};
use board_core::{Board, Brief};
use ras_io::{Sink, SinkFault};

/// Writes the report of a board that keeps no notes, after the steps that it has made, in full or short; each line is
/// one write. The one fault is the sink's own, of which its count tells; up to there the report was appended.
pub fn report_brief<K: Sink>(board: &Brief, short: bool, sink: &mut K) -> Result<(), SinkFault>
    ensures bytes { Puts (K.written sink.old) (K.written sink.new) result
        (report_bytes short board.now.plan (own_run board.now)) }
    ensures cause { HasCause (K.faults sink.old) (K.faults sink.new) result }
    ensures writes { OnOk result (K.writes sink.new ≡ many (K.writes sink.old) (length
        (report_lines short board.now.plan (own_run board.now)))) }
{
    let steps = board.steps();
    let fates = board.fates();
    if short {
        write_short(board.plan(), steps.len() as u64, &fates, sink)
    } else {
        write_full(board.plan(), board.parts(), steps, &fates, sink)
    }
}

/// Writes the report of a board after the steps that it has made, in full or short; each line is one write. The one
/// fault is the sink's own, of which its count tells; up to there the report was appended.
pub fn report<K: Sink>(board: &Board, short: bool, sink: &mut K) -> Result<(), SinkFault>
    ensures bytes { Puts (K.written sink.old) (K.written sink.new) result
        (report_bytes short board.now.plan (own_run board.now)) }
    ensures cause { HasCause (K.faults sink.old) (K.faults sink.new) result }
    ensures writes { OnOk result (K.writes sink.new ≡ many (K.writes sink.old) (length
        (report_lines short board.now.plan (own_run board.now)))) }
{
    report_brief(board.brief(), short, sink)
}

/// Writes the trace of a board, a line for each step that it has made; each line is one write. The one fault is the
/// sink's own, of which its count tells; up to there the trace was appended.
pub fn trace<K: Sink>(board: &Board, sink: &mut K) -> Result<(), SinkFault>
    ensures bytes { Puts (K.written sink.old) (K.written sink.new) result (trace_bytes (own_run board.now)) }
    ensures cause { HasCause (K.faults sink.old) (K.faults sink.new) result }
    ensures writes { OnOk result (K.writes sink.new ≡ many (K.writes sink.old) (length
        (trace_lines 1 (own_run board.now).notes))) }
{
    write_trace(board.steps(), board.notes(), sink)
}
