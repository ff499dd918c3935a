//! Writes the canonical text of a plan.

ghost use Rattle.std.specs.Prelude.{◌≡◌, ◌+◌, ◌==◌, ◌++◌, ◌∷◌, [], map};
ghost use Rattle.ras_io.specs.Causes.{HasCause, Puts};
ghost use Rattle.ras_text.specs.Lines.{text_of, sink_of, SameSink};
ghost use Rattle.board_plan.specs.Canonical.{
  line_text,
  lines_text,
  board_line,
  event_line,
  plat_lines,
  has_gather,
  gather_lines,
  bank_line,
  bank_lines,
  record_line,
  at_lines,
  op_line,
  op_lines,
  start_line,
  list_line,
  act_line,
  lines_of_reporter,
  reporter_lines,
  schedule_line,
  in_lines,
  schedule_lines,
  later_lines,
  canonical,
};

use crate::statement::{Statement, write_statement};
use board_plan::{BankDecl, List, Placed, Plan, RecDecl, Reporter, Start, Step};
use ras_device::Act;
use ras_io::{Sink, SinkFault};
use ras_text::Line;
use sse_base::EventDecl;

const FIRST_ADDRESS: u64 = 0x1000;

const USUAL_GATHER: u8 = 4;
// entries of a schedule a line
const ENTRIES: usize = 16;

fn write_events<K: Sink>(line: &mut Line<'_, K>, events: &[EventDecl]) -> Result<(), SinkFault>
    requires { text_of line.old ≡ [] }
    ensures empty { text_of line.new ≡ [] }
    ensures bytes { Puts (K.written (sink_of line.old)) (K.written (sink_of line.new)) result
        (lines_text (map event_line events.now)) }
    ensures cause { HasCause (K.faults (sink_of line.old)) (K.faults (sink_of line.new)) result }
    ensures same_sink { SameSink line.new line.old }
{
    for event in events {
        if let Err(fault) = write_statement(line, Statement::Event(*event)) {
            return Err(fault);
        }
    }
    Ok(())
}

fn write_records<K: Sink>(line: &mut Line<'_, K>, recs: &[RecDecl]) -> Result<(), SinkFault>
    requires { text_of line.old ≡ [] }
    ensures empty { text_of line.new ≡ [] }
    ensures bytes { Puts (K.written (sink_of line.old)) (K.written (sink_of line.new)) result
        (lines_text (map record_line recs.now)) }
    ensures cause { HasCause (K.faults (sink_of line.old)) (K.faults (sink_of line.new)) result }
    ensures same_sink { SameSink line.new line.old }
{
    for rec in recs {
        if let Err(fault) = write_statement(line, Statement::Record(*rec)) {
            return Err(fault);
        }
    }
    Ok(())
}

fn write_starts<K: Sink>(line: &mut Line<'_, K>, starts: &[Start]) -> Result<(), SinkFault>
    requires { text_of line.old ≡ [] }
    ensures empty { text_of line.new ≡ [] }
    ensures bytes { Puts (K.written (sink_of line.old)) (K.written (sink_of line.new)) result
        (lines_text (map start_line starts.now)) }
    ensures cause { HasCause (K.faults (sink_of line.old)) (K.faults (sink_of line.new)) result }
    ensures same_sink { SameSink line.new line.old }
{
    for start in starts {
        if let Err(fault) = write_statement(line, Statement::Start(*start)) {
            return Err(fault);
        }
    }
    Ok(())
}

fn write_acts<K: Sink>(line: &mut Line<'_, K>, reporter: u64, acts: &[Act]) -> Result<(), SinkFault>
    requires { text_of line.old ≡ [] }
    ensures empty { text_of line.new ≡ [] }
    ensures bytes { Puts (K.written (sink_of line.old)) (K.written (sink_of line.new)) result
        (lines_text (map (act_line reporter) acts.now)) }
    ensures cause { HasCause (K.faults (sink_of line.old)) (K.faults (sink_of line.new)) result }
    ensures same_sink { SameSink line.new line.old }
{
    for act in acts {
        let statement = Statement::Act {
            reporter,
            act: *act,
        };
        if let Err(fault) = write_statement(line, statement) {
            return Err(fault);
        }
    }
    Ok(())
}

fn write_plat<K: Sink>(
    line: &mut Line<'_, K>,
    bank: u64,
    plat: Option<u32>,
) -> Result<(), SinkFault>
    requires { text_of line.old ≡ [] }
    ensures empty { text_of line.new ≡ [] }
    ensures bytes { Puts (K.written (sink_of line.old)) (K.written (sink_of line.new)) result
        (lines_text (plat_lines bank plat)) }
    ensures cause { HasCause (K.faults (sink_of line.old)) (K.faults (sink_of line.new)) result }
    ensures same_sink { SameSink line.new line.old }
{
    match plat {
        None => Ok(()),
        Some(id) => write_statement(line, Statement::Plat { bank, id }),
    }
}

/// Whether a gather number has a line.
fn has_gather(version: u8, count: u8) -> bool
    ensures { result ≡ has_gather version count }
{
    version == 2 && count != USUAL_GATHER
}

fn write_gather<K: Sink>(
    line: &mut Line<'_, K>,
    version: u8,
    bank: u64,
    count: u8,
) -> Result<(), SinkFault>
    requires { text_of line.old ≡ [] }
    ensures empty { text_of line.new ≡ [] }
    ensures bytes { Puts (K.written (sink_of line.old)) (K.written (sink_of line.new)) result
        (lines_text (gather_lines version bank count)) }
    ensures cause { HasCause (K.faults (sink_of line.old)) (K.faults (sink_of line.new)) result }
    ensures same_sink { SameSink line.new line.old }
{
    if has_gather(version, count) {
        return write_statement(line, Statement::Gather { bank, count });
    }
    Ok(())
}

fn write_bank<K: Sink>(
    line: &mut Line<'_, K>,
    version: u8,
    n: u64,
    bank: &BankDecl,
) -> Result<(), SinkFault>
    requires { text_of line.old ≡ [] }
    ensures empty { text_of line.new ≡ [] }
    ensures bytes { Puts (K.written (sink_of line.old)) (K.written (sink_of line.new)) result
        (line_text (bank_line bank.now)
        ++ (lines_text (plat_lines n bank.now.plat) ++ lines_text (gather_lines version n bank.now.gather))) }
    ensures cause { HasCause (K.faults (sink_of line.old)) (K.faults (sink_of line.new)) result }
    ensures same_sink { SameSink line.new line.old }
{
    if let Err(fault) = write_statement(line, Statement::Bank(*bank)) {
        return Err(fault);
    }
    if let Err(fault) = write_plat(line, n, bank.plat) {
        return Err(fault);
    }
    write_gather(line, version, n, bank.gather)
}

fn write_banks<K: Sink>(
    line: &mut Line<'_, K>,
    version: u8,
    banks: &[BankDecl],
) -> Result<(), SinkFault>
    requires { text_of line.old ≡ [] }
    ensures empty { text_of line.new ≡ [] }
    ensures bytes { Puts (K.written (sink_of line.old)) (K.written (sink_of line.new)) result
        (lines_text (bank_lines version 0 banks.now)) }
    ensures cause { HasCause (K.faults (sink_of line.old)) (K.faults (sink_of line.new)) result }
    ensures same_sink { SameSink line.new line.old }
{
    for n in 0..banks.len() {
        if let Err(fault) = write_bank(line, version, n as u64, &banks[n]) {
            return Err(fault);
        }
    }
    Ok(())
}

/// Whether an op stands 4 behind another address.
fn follows(previous: u64, pc: u64) -> bool
    ensures { result ≡ (pc == previous + 4) }
{
    pc >= 4 && pc - 4 == previous
}

fn write_at<K: Sink>(line: &mut Line<'_, K>, previous: u64, pc: u64) -> Result<(), SinkFault>
    requires { text_of line.old ≡ [] }
    ensures empty { text_of line.new ≡ [] }
    ensures bytes { Puts (K.written (sink_of line.old)) (K.written (sink_of line.new)) result
        (lines_text (at_lines (previous + 4) pc)) }
    ensures cause { HasCause (K.faults (sink_of line.old)) (K.faults (sink_of line.new)) result }
    ensures same_sink { SameSink line.new line.old }
{
    if follows(previous, pc) {
        return Ok(());
    }
    write_statement(line, Statement::At(pc))
}

fn write_op<K: Sink>(
    line: &mut Line<'_, K>,
    previous: u64,
    placed: &Placed,
) -> Result<(), SinkFault>
    requires { text_of line.old ≡ [] }
    ensures empty { text_of line.new ≡ [] }
    ensures bytes { Puts (K.written (sink_of line.old)) (K.written (sink_of line.new)) result
        (lines_text (at_lines (previous + 4) placed.now.pc) ++ line_text (op_line placed.now.op)) }
    ensures cause { HasCause (K.faults (sink_of line.old)) (K.faults (sink_of line.new)) result }
    ensures same_sink { SameSink line.new line.old }
{
    if let Err(fault) = write_at(line, previous, placed.pc) {
        return Err(fault);
    }
    write_statement(line, Statement::Op(placed.op))
}

fn write_ops<K: Sink>(line: &mut Line<'_, K>, ops: &[Placed]) -> Result<(), SinkFault>
    requires { text_of line.old ≡ [] }
    ensures empty { text_of line.new ≡ [] }
    ensures bytes { Puts (K.written (sink_of line.old)) (K.written (sink_of line.new)) result
        (lines_text (op_lines 0x1000 ops.now)) }
    ensures cause { HasCause (K.faults (sink_of line.old)) (K.faults (sink_of line.new)) result }
    ensures same_sink { SameSink line.new line.old }
{
    let mut previous = FIRST_ADDRESS - 4;
    for placed in ops {
        if let Err(fault) = write_op(line, previous, placed) {
            return Err(fault);
        }
        previous = placed.pc;
    }
    Ok(())
}

fn write_list<K: Sink>(line: &mut Line<'_, K>, n: u64, acts: &[Act]) -> Result<(), SinkFault>
    requires { text_of line.old ≡ [] }
    ensures empty { text_of line.new ≡ [] }
    ensures bytes { Puts (K.written (sink_of line.old)) (K.written (sink_of line.new)) result
        (line_text list_line ++ lines_text (map (act_line n) acts.now)) }
    ensures cause { HasCause (K.faults (sink_of line.old)) (K.faults (sink_of line.new)) result }
    ensures same_sink { SameSink line.new line.old }
{
    if let Err(fault) = write_statement(line, Statement::List) {
        return Err(fault);
    }
    write_acts(line, n, acts)
}

fn write_reporter<K: Sink>(
    line: &mut Line<'_, K>,
    n: u64,
    reporter: &Reporter,
) -> Result<(), SinkFault>
    requires { text_of line.old ≡ [] }
    ensures empty { text_of line.new ≡ [] }
    ensures bytes { Puts (K.written (sink_of line.old)) (K.written (sink_of line.new)) result
        (lines_text (lines_of_reporter n reporter.now.device reporter.now.limit reporter.now.acts)) }
    ensures cause { HasCause (K.faults (sink_of line.old)) (K.faults (sink_of line.new)) result }
    ensures same_sink { SameSink line.new line.old }
{
    let limit = reporter.limit;
    match reporter.device {
        None => write_list(line, n, reporter.acts.as_slice()),
        Some(k) => write_statement(line, Statement::Device { k, limit }),
    }
}

fn write_reporters<K: Sink>(line: &mut Line<'_, K>, reporters: &[Reporter]) -> Result<(), SinkFault>
    requires { text_of line.old ≡ [] }
    ensures empty { text_of line.new ≡ [] }
    ensures bytes { Puts (K.written (sink_of line.old)) (K.written (sink_of line.new)) result
        (lines_text (reporter_lines 0 reporters.now)) }
    ensures cause { HasCause (K.faults (sink_of line.old)) (K.faults (sink_of line.new)) result }
    ensures same_sink { SameSink line.new line.old }
{
    for n in 0..reporters.len() {
        if let Err(fault) = write_reporter(line, n as u64, &reporters[n]) {
            return Err(fault);
        }
    }
    Ok(())
}

fn write_steps<K: Sink>(line: &mut Line<'_, K>, steps: &[Step]) -> Result<(), SinkFault>
    requires { text_of line.old ≡ [] }
    ensures empty { text_of line.new ≡ [] }
    ensures bytes { Puts (K.written (sink_of line.old)) (K.written (sink_of line.new)) result
        (lines_text (map schedule_line (in_lines [] steps.now))) }
    ensures cause { HasCause (K.faults (sink_of line.old)) (K.faults (sink_of line.new)) result }
    ensures same_sink { SameSink line.new line.old }
{
    let mut rest = steps;
    while rest.len() > ENTRIES {
        let (entries, after) = rest.split_at(ENTRIES);
        if let Err(fault) = write_statement(line, Statement::Schedule(entries)) {
            return Err(fault);
        }
        rest = after;
    }
    write_statement(line, Statement::Schedule(rest))
}

fn write_schedule<K: Sink>(
    line: &mut Line<'_, K>,
    schedule: &Option<List<Step>>,
) -> Result<(), SinkFault>
    requires { text_of line.old ≡ [] }
    ensures empty { text_of line.new ≡ [] }
    ensures bytes { Puts (K.written (sink_of line.old)) (K.written (sink_of line.new)) result
        (lines_text (schedule_lines schedule.now)) }
    ensures cause { HasCause (K.faults (sink_of line.old)) (K.faults (sink_of line.new)) result }
    ensures same_sink { SameSink line.new line.old }
{
    match schedule {
        None => Ok(()),
        Some(steps) => write_steps(line, steps.as_slice()),
    }
}

/// The board, events, banks and records.
fn write_board<K: Sink>(line: &mut Line<'_, K>, plan: &Plan) -> Result<(), SinkFault>
    requires { text_of line.old ≡ [] }
    ensures empty { text_of line.new ≡ [] }
    ensures bytes { Puts (K.written (sink_of line.old)) (K.written (sink_of line.new)) result
        (line_text (board_line plan.now.version plan.now.harts)
        ++ (lines_text (map event_line plan.now.events)
        ++ (lines_text (bank_lines plan.now.version 0 plan.now.banks) ++ lines_text (map record_line plan.now.recs)))) }
    ensures cause { HasCause (K.faults (sink_of line.old)) (K.faults (sink_of line.new)) result }
    ensures same_sink { SameSink line.new line.old }
{
    let board = Statement::Board {
        version: plan.version,
        harts: plan.harts,
    };
    if let Err(fault) = write_statement(line, board) {
        return Err(fault);
    }
    if let Err(fault) = write_events(line, plan.events.as_slice()) {
        return Err(fault);
    }
    if let Err(fault) = write_banks(line, plan.version, plan.banks.as_slice()) {
        return Err(fault);
    }
    write_records(line, plan.recs.as_slice())
}

/// Ops, starts, reporters and the schedule.
fn write_runs<K: Sink>(line: &mut Line<'_, K>, plan: &Plan) -> Result<(), SinkFault>
    requires { text_of line.old ≡ [] }
    ensures empty { text_of line.new ≡ [] }
    ensures bytes { Puts (K.written (sink_of line.old)) (K.written (sink_of line.new)) result
        (lines_text (op_lines 0x1000 plan.now.ops)
        ++ (lines_text (map start_line plan.now.starts)
        ++ (lines_text (reporter_lines 0 plan.now.reporters) ++ lines_text (schedule_lines plan.now.schedule)))) }
    ensures cause { HasCause (K.faults (sink_of line.old)) (K.faults (sink_of line.new)) result }
    ensures same_sink { SameSink line.new line.old }
{
    if let Err(fault) = write_ops(line, plan.ops.as_slice()) {
        return Err(fault);
    }
    if let Err(fault) = write_starts(line, plan.starts.as_slice()) {
        return Err(fault);
    }
    if let Err(fault) = write_reporters(line, plan.reporters.as_slice()) {
        return Err(fault);
    }
    write_schedule(line, &plan.schedule)
}

/// The whole text.
fn write_lines<K: Sink>(line: &mut Line<'_, K>, plan: &Plan) -> Result<(), SinkFault>
    requires { text_of line.old ≡ [] }
    ensures bytes { Puts (K.written (sink_of line.old)) (K.written (sink_of line.new)) result (canonical plan.now) }
    ensures cause { HasCause (K.faults (sink_of line.old)) (K.faults (sink_of line.new)) result }
    ensures same_sink { SameSink line.new line.old }
{
    if let Err(fault) = write_board(line, plan) {
        return Err(fault);
    }
    write_runs(line, plan)
}

/// Writes the canonical text of a plan, each line in one write. SinkFault comes only where the sink failed, of
/// which its count tells, and then a front of the text was written. The text is this project's own.
pub fn write<K: Sink>(plan: &Plan, sink: &mut K) -> Result<(), SinkFault>
    ensures bytes { Puts (K.written sink.old) (K.written sink.new) result (canonical plan.now) }
    ensures cause { HasCause (K.faults sink.old) (K.faults sink.new) result }
{
    let mut line = Line::new(sink);
    write_lines(&mut line, plan)
}
