//! The top call that runs a script with a worker for each hart and reporter.

ghost use Rattle.std.specs.Prelude.{◌≡◌, ◌↔◌, ℕ, ◌≤◌, ◌<◌, true, false, IfSome, bytes_eq, length};
ghost use Rattle.std.specs.Io.KnownBytes.{IsAtEnd};
ghost use Rattle.ras_io.specs.Causes.{Rose};
ghost use Rattle.ras_io.specs.Whole.{TakesOneTooMany};
ghost use Rattle.board_plan.specs.Plans.{IsPlan};
ghost use Rattle.board_plan.specs.Script.{IsRefused};
ghost use Rattle.board_core.specs.Played.{AreListsReports};
ghost use Rattle.board_lock.specs.Hiring.{left_in};
ghost use Rattle.board_run.specs.Commands.{limit};
ghost use Rattle.board_run.specs.Play.{
  Answers,
  is_silent,
  is_of_text,
  is_read_fault,
  is_write_fault,
};
ghost use Rattle.board_run.specs.Run.{WritesRun, WritesRunFront, WroteRun, is_run};

use crate::status::Status;
use board_lock::{Gate, run_plan};
use board_plan::{LineFault, Plan};
use board_report::report_brief;
use board_script::{ScriptError, read};
use ras_device::ErrorDevice;
use ras_io::{ReadAllError, Sink, Source, read_all};
use std::alloc::Global;
use std::sync::Wait;
use std::thread::Threads;

/// The longest input that is read, in bytes.
const LIMIT: usize = 1048576;

/// Whether these words are the one command of `run`.
fn is_run(words: &[&str]) -> bool
    ensures { result ≡ is_run words.now }
{
    let [name] = words else {
        return false;
    };
    name.as_bytes() == b"run".as_slice()
}

/// Runs a plan, and writes the full report of its run. NoMemory comes before anything is written.
fn write_run<R: Threads + Wait + Sync, K: Sink, G: Gate + Sync, D: ErrorDevice>(
    rt: &R,
    alloc: Global,
    plan: Plan,
    sink: &mut K,
    devices: Vec<D>,
    gate: &G,
) -> Status
    requires plan { IsPlan plan }
    requires reports { AreListsReports plan }
    ensures wrote { WroteRun (left_in D.left devices.items) plan (K.written sink.old) (K.written sink.new) result }
    ensures fault { result ≡ Status.WriteFault → Rose (K.faults sink.old) (K.faults sink.new) }
    ensures kept { is_write_fault result ≡ false → K.faults sink.new ≡ K.faults sink.old }
    ensures silent { is_silent result ≡ true → sink.new ≡ sink.old }
{
    let Ok(board) = run_plan(rt, alloc, plan, devices, gate) else {
        return Status::NoMemory;
    };
    match report_brief(&board, false, sink) {
        Ok(()) => Status::Ok,
        Err(_) => Status::WriteFault,
    }
}

/// Reads a script, runs it and writes the full report of its run.
fn run_with<R: Threads + Wait + Sync, S: Source, K: Sink, G: Gate + Sync, D: ErrorDevice>(
    rt: &R,
    alloc: Global,
    source: &mut S,
    sink: &mut K,
    devices: Vec<D>,
    gate: &G,
) -> Status
    ensures ok { result ≡ Status.Ok → IfSome (S.left source.old)
        (λ text. WritesRun (left_in D.left devices.items) text (K.written sink.old) (K.written sink.new)) }
    ensures ended { result ≡ Status.Ok → IsAtEnd (S.left source.new) }
    ensures used { (result ≡ Status.Usage) → ⊥ }
    ensures read_fault { result ≡ Status.ReadFault → Rose (S.faults source.old) (S.faults source.new) }
    ensures too_long { result ≡ Status.TooLong → IfSome (S.left source.old) (λ text. limit < length text) }
    ensures one_too_many { result ≡ Status.TooLong → TakesOneTooMany (S.left source.old) (S.left source.new) limit }
    ensures bad_script { (line : ℕ) (kind : LineFault) → result ≡ Status.BadScript line kind →
        IfSome (S.left source.old) (λ text. IsRefused text line kind) }
    ensures within { is_of_text result ≡ true → IfSome (S.left source.old) (λ text. length text ≤ limit) }
    ensures write_fault { result ≡ Status.WriteFault → Rose (K.faults sink.old) (K.faults sink.new) }
    ensures front { result ≡ Status.WriteFault → IfSome (S.left source.old)
        (λ text. WritesRunFront (left_in D.left devices.items) text (K.written sink.old) (K.written sink.new)) }
    ensures source_kept { is_read_fault result ≡ false → S.faults source.new ≡ S.faults source.old }
    ensures sink_kept { is_write_fault result ≡ false → K.faults sink.new ≡ K.faults sink.old }
    ensures silent { is_silent result ≡ true → sink.new ≡ sink.old }
    ensures complete { (Rose (S.faults source.old) (S.faults source.new) → ⊥) →
        IfSome (S.left source.old) (λ text. Answers text result) }
{
    let text = match read_all(alloc, source, LIMIT) {
        Ok(text) => text,
        Err(ReadAllError::ReadFault) => return Status::ReadFault,
        Err(ReadAllError::TooLong) => return Status::TooLong,
        Err(ReadAllError::NoMemory) => return Status::NoMemory,
    };
    let plan = match read(alloc, text.as_slice()) {
        Ok(plan) => plan,
        Err(ScriptError::BadLine { line, kind }) => return Status::BadScript { line, kind },
        Err(ScriptError::NoMemory) => return Status::NoMemory,
    };
    write_run(rt, alloc, plan, sink, devices, gate)
}

/// Runs a script in threads, where the words are the one word `run`, and writes the full report of that run to the
/// sink, each line in one write. The script is the whole text of the source. Each hart and each reporter has a worker
/// in a thread of its own; all of them step on one board, which a lock gives to one at a time, and the gate hears of
/// each try before the lock is taken. The lock decides the order of the steps, and the report's schedule lines give it;
/// a schedule in the script itself counts for nothing. Reporters that name a device K are given the acts of place K in
/// `devices`, and none where nothing stands there. Nothing is waited for but the board's lock, and all that is promised
/// holds once this call returns.
///
/// The answers, in the order in which they are looked for: Usage, ReadFault, TooLong, NoMemory, BadScript, NoMemory
/// again, WriteFault. The rules are this project's own.
pub fn run<R: Threads + Wait + Sync, S: Source, K: Sink, G: Gate + Sync>(
    rt: &R,
    alloc: Global,
    words: &[&str],
    source: &mut S,
    sink: &mut K,
    devices: Vec<Box<dyn ErrorDevice + Send>>,
    gate: &G,
) -> Status
    // The whole report of a run is appended in which each step was made and after which nobody has one, and nothing is
    // left in the source.
    ensures ok { result ≡ Status.Ok → IfSome (S.left source.old)
        (λ text. WritesRun (left_in ⟦<Box<dyn ErrorDevice + Send> as ErrorDevice>⟧.left devices.items) text
        (K.written sink.old) (K.written sink.new)) }
    ensures ended { result ≡ Status.Ok → IsAtEnd (S.left source.new) }

    // Why each other answer comes.
    ensures usage { (result ≡ Status.Usage) ↔ (is_run words.now ≡ false) }
    ensures read_fault { result ≡ Status.ReadFault → Rose (S.faults source.old) (S.faults source.new) }
    ensures too_long { result ≡ Status.TooLong → IfSome (S.left source.old) (λ text. limit < length text) }
    ensures one_too_many { result ≡ Status.TooLong → TakesOneTooMany (S.left source.old) (S.left source.new) limit }
    ensures bad_script { (line : ℕ) (kind : LineFault) → result ≡ Status.BadScript line kind →
        IfSome (S.left source.old) (λ text. IsRefused text line kind) }
    ensures within { is_of_text result ≡ true → IfSome (S.left source.old) (λ text. length text ≤ limit) }
    ensures write_fault { result ≡ Status.WriteFault → Rose (K.faults sink.old) (K.faults sink.new) }
    ensures front { result ≡ Status.WriteFault → IfSome (S.left source.old)
        (λ text. WritesRunFront (left_in ⟦<Box<dyn ErrorDevice + Send> as ErrorDevice>⟧.left devices.items) text
        (K.written sink.old) (K.written sink.new)) }

    // No fault is passed over.
    ensures source_kept { is_read_fault result ≡ false → S.faults source.new ≡ S.faults source.old }
    ensures sink_kept { is_write_fault result ≡ false → K.faults sink.new ≡ K.faults sink.old }

    // Before every answer but Ok and WriteFault nothing is written, and before Usage nothing is read.
    ensures silent { is_silent result ≡ true → sink.new ≡ sink.old }
    ensures unread { result ≡ Status.Usage → source.new ≡ source.old }

    // Where the source has no fault, a text has its one answer, unless memory is wanting or the sink fails.
    ensures complete { is_run words.now ≡ true → (Rose (S.faults source.old) (S.faults source.new) → ⊥) →
        IfSome (S.left source.old) (λ text. Answers text result) }
{
    if !is_run(words) {
        return Status::Usage;
    }
    run_with(rt, alloc, source, sink, devices, gate)
}
