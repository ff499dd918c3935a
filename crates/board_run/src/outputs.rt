//! What a command writes.

ghost use Rattle.std.specs.Prelude.{◌≡◌, ℕ, IfOk, List, Ok, OnErr, true, false};
ghost use Rattle.ras_io.specs.Causes.{HasCause, Puts, Rose};
ghost use Rattle.ras_device.specs.declared.act.Act.{Act};
ghost use Rattle.board_plan.specs.Script.{Reads};
ghost use Rattle.board_plan.specs.Canonical.{canonical, moved};
ghost use Rattle.board_plan.specs.Plans.{IsPlan};
ghost use Rattle.move_laws.specs.Moves.{GathersByVersion};
ghost use Rattle.board_core.specs.Played.{AreListsReports, own_run};
ghost use Rattle.board_play.specs.Played.{IsRunOf};
ghost use Rattle.board_report.specs.Reports.{trace_bytes};
ghost use Rattle.board_report.specs.Tracing.{SameTrace, number_of, outcome_of, sink_of};
ghost use Rattle.board_run.specs.Play.{is_silent, is_write_fault, lists_of};
ghost use Rattle.board_run.specs.Parts.{is_traced, shown_bytes, Writes, Wrote};

use crate::command::{Command, Shown};
use crate::pages::{status_of, write_pages};
use crate::status::Status;
use board_core::{Brief, Unheard};
use board_plan::Plan;
use board_play::play_plan;
use board_report::{Tracer, report_brief};
use board_script::{moved, write};
use ras_device::ErrorDevice;
use ras_io::{NoMemory, Sink, SinkFault};
use ras_text::Line;
use std::alloc::Global;

/// A board that was played, and what came of the writes of its trace.
#[derive(Drop)]
struct Traced {
    board: Brief,
    written: Result<(), SinkFault>,
}

/// Plays a plan with these devices, with a tracer that has written nothing yet. `NoMemory` comes before anything is
/// written.
fn play_told<K: Sink, D: ErrorDevice>(
    alloc: Global,
    plan: Plan,
    devices: Vec<D>,
    tracer: &mut Tracer<'_, K>,
) -> Result<Traced, NoMemory>
    requires plan { IsPlan plan }
    requires reports { AreListsReports plan }
    requires first { number_of tracer.old ≡ 1 }
    requires going { outcome_of tracer.old ≡ Ok tt }
    ensures run { IfOk result (λ t. IsRunOf plan (lists_of D.left devices.items) t.board) }
    ensures bytes { IfOk result (λ t. Puts (K.written (sink_of tracer.old)) (K.written (sink_of tracer.new)) t.written
        (trace_bytes (own_run t.board))) }
    ensures cause { IfOk result (λ t. HasCause (K.faults (sink_of tracer.old)) (K.faults (sink_of tracer.new))
        t.written) }
    ensures silent { OnErr result (sink_of tracer.new ≡ sink_of tracer.old) }
    ensures same_trace { SameTrace tracer.new tracer.old }
{
    let board = play_plan(alloc, plan, devices, tracer)?;
    let _steps = board.steps();
    Ok(Traced {
        board,
        written: tracer.outcome,
    })
}

/// Plays a plan with these devices, and writes the trace of its run as it goes. `NoMemory` comes before anything is
/// written.
fn play_traced<K: Sink, D: ErrorDevice>(
    alloc: Global,
    plan: Plan,
    devices: Vec<D>,
    sink: &mut K,
) -> Result<Traced, NoMemory>
    requires plan { IsPlan plan }
    requires reports { AreListsReports plan }
    ensures run { IfOk result (λ t. IsRunOf plan (lists_of D.left devices.items) t.board) }
    ensures bytes { IfOk result (λ t. Puts (K.written sink.old) (K.written sink.new) t.written
        (trace_bytes (own_run t.board))) }
    ensures cause { IfOk result (λ t. HasCause (K.faults sink.old) (K.faults sink.new) t.written) }
    ensures silent { OnErr result (sink.new ≡ sink.old) }
{
    let mut tracer = Tracer {
        line: Line::new(sink),
        number: 1,
        outcome: Ok(()),
    };
    play_told(alloc, plan, devices, &mut tracer)
}

/// Plays a plan with these devices, and writes the trace of its run as it goes, and then its full report
/// if no write failed.
fn write_traced<K: Sink, D: ErrorDevice>(
    alloc: Global,
    plan: Plan,
    devices: Vec<D>,
    sink: &mut K,
) -> Status
    requires plan { IsPlan plan }
    requires reports { AreListsReports plan }
    ensures wrote { Wrote (Command.Play Shown.Traced) (lists_of D.left devices.items) plan (K.written sink.old)
        (K.written sink.new) result }
    ensures fault { result ≡ Status.WriteFault → Rose (K.faults sink.old) (K.faults sink.new) }
    ensures kept { is_write_fault result ≡ false → K.faults sink.new ≡ K.faults sink.old }
    ensures silent { is_silent result ≡ true → sink.new ≡ sink.old }
{
    let Ok(traced) = play_traced(alloc, plan, devices, sink) else {
        return Status::NoMemory;
    };
    match traced.written {
        Ok(()) => status_of(report_brief(&traced.board, false, sink)),
        Err(_) => Status::WriteFault,
    }
}

/// Writes what is shown of a board's run behind its trace, if that is shown too.
fn write_shown<K: Sink>(alloc: Global, what: Shown, board: &Brief, sink: &mut K) -> Status
    ensures wrote { is_traced what ≡ false → Writes (shown_bytes what board.now.plan (own_run board.now))
        (K.written sink.old) (K.written sink.new) result }
    ensures fault { result ≡ Status.WriteFault → Rose (K.faults sink.old) (K.faults sink.new) }
    ensures kept { is_write_fault result ≡ false → K.faults sink.new ≡ K.faults sink.old }
    ensures silent { is_silent result ≡ true → sink.new ≡ sink.old }
{
    match what {
        Shown::Full | Shown::Traced => status_of(report_brief(board, false, sink)),
        Shown::Short => status_of(report_brief(board, true, sink)),
        Shown::Pages(threshold) => write_pages(alloc, threshold, board, sink),
    }
}

/// Whether a trace is shown.
fn is_traced(what: Shown) -> bool
    ensures { result ≡ is_traced what }
{
    matches!(what, Shown::Traced)
}

/// Plays a plan with these devices, and writes what is shown of its run.
fn write_play<K: Sink, D: ErrorDevice>(
    alloc: Global,
    what: Shown,
    plan: Plan,
    devices: Vec<D>,
    sink: &mut K,
) -> Status
    requires plan { IsPlan plan }
    requires reports { AreListsReports plan }
    ensures wrote { Wrote (Command.Play what) (lists_of D.left devices.items) plan (K.written sink.old)
        (K.written sink.new) result }
    ensures fault { result ≡ Status.WriteFault → Rose (K.faults sink.old) (K.faults sink.new) }
    ensures kept { is_write_fault result ≡ false → K.faults sink.new ≡ K.faults sink.old }
    ensures silent { is_silent result ≡ true → sink.new ≡ sink.old }
{
    if is_traced(what) {
        return write_traced(alloc, plan, devices, sink);
    }
    let Ok(board) = play_plan(alloc, plan, devices, &mut Unheard) else {
        return Status::NoMemory;
    };
    write_shown(alloc, what, &board, sink)
}

/// Moves a plan to version 2, and writes its canonical text.
fn write_move<K: Sink>(mut plan: Plan, sink: &mut K) -> Status
    requires { GathersByVersion plan }
    ensures wrote { (devices : List (List Act)) → Wrote Command.Move devices plan (K.written sink.old)
        (K.written sink.new) result }
    ensures fault { result ≡ Status.WriteFault → Rose (K.faults sink.old) (K.faults sink.new) }
    ensures kept { is_write_fault result ≡ false → K.faults sink.new ≡ K.faults sink.old }
    ensures silent { is_silent result ≡ true → sink.new ≡ sink.old }
{
    moved(&mut plan);
    status_of(write(&plan, sink))
}

/// Does with a plan and these devices what the command says, and writes its output. NoMemory comes before anything is
/// written.
pub(crate) fn write_output<K: Sink, D: ErrorDevice>(
    alloc: Global,
    command: Command,
    plan: Plan,
    devices: Vec<D>,
    sink: &mut K,
) -> Status
    requires plan { IsPlan plan }
    requires reports { AreListsReports plan }
    requires gathers { GathersByVersion plan }
    ensures wrote { Wrote command (lists_of D.left devices.items) plan (K.written sink.old) (K.written sink.new)
        result }
    ensures fault { result ≡ Status.WriteFault → Rose (K.faults sink.old) (K.faults sink.new) }
    ensures kept { is_write_fault result ≡ false → K.faults sink.new ≡ K.faults sink.old }
    ensures silent { is_silent result ≡ true → sink.new ≡ sink.old }
{
    match command {
        Command::Play(what) => write_play(alloc, what, plan, devices, sink),
        Command::Load(_) => write_play(alloc, Shown::Short, plan, devices, sink),
        Command::Move => write_move(plan, sink),
    }
}
