//! The top call.

ghost use Rattle.std.specs.Prelude.{◌≡◌, ◌↔◌, ℕ, ◌≤◌, ◌<◌, true, false, None, IfSome, length};
ghost use Rattle.std.specs.Io.KnownBytes.{IsAtEnd};
ghost use Rattle.ras_io.specs.Causes.{Rose};
ghost use Rattle.ras_io.specs.Whole.{TakesOneTooMany};
ghost use Rattle.board_plan.specs.Script.{IsRefused};
ghost use Rattle.board_load.specs.Load.{load_text};
ghost use Rattle.board_run.specs.Commands.{command_of, input_of, limit, reads_source};
ghost use Rattle.board_run.specs.Play.{
  WritesOutput,
  WritesFront,
  Answers,
  is_silent,
  is_of_source,
  is_of_text,
  is_read_fault,
  is_write_fault,
  lists_of,
};
ghost use Rattle.board_run.specs.Parts.{is_unread};

use crate::command::{Command, command_of};
use crate::outputs::write_output;
use crate::status::Status;
use board_load::script;
use board_plan::LineFault;
use board_script::{ScriptError, read};
use load_laws::each_load_is_short;
use ras_device::ErrorDevice;
use ras_io::{ReadAllError, Sink, Source, read_all};
use std::alloc::Global;

/// The longest script that is read, in bytes.
const LIMIT: usize = 1048576;

/// Does what a command says with its script, which is this text.
fn play_text<K: Sink, D: ErrorDevice>(
    alloc: Global,
    command: Command,
    text: &[u8],
    sink: &mut K,
    devices: Vec<D>,
) -> Status
    requires few { length text.now ≤ limit }
    ensures ok { result ≡ Status.Ok
        → WritesOutput command (lists_of D.left devices.items) text.now (K.written sink.old) (K.written sink.new) }
    ensures bad_script { (line : ℕ) (kind : LineFault) → result ≡ Status.BadScript line kind
        → IsRefused text.now line kind }
    ensures write_fault { result ≡ Status.WriteFault → Rose (K.faults sink.old) (K.faults sink.new) }
    ensures front { result ≡ Status.WriteFault
        → WritesFront command (lists_of D.left devices.items) text.now (K.written sink.old) (K.written sink.new) }
    ensures kept { is_write_fault result ≡ false → K.faults sink.new ≡ K.faults sink.old }
    ensures silent { is_silent result ≡ true → sink.new ≡ sink.old }
    ensures answers { Answers text.now result }
    ensures read { is_unread result ≡ false }
{
    let plan = match read(alloc, text) {
        Ok(plan) => plan,
        Err(ScriptError::BadLine { line, kind }) => return Status::BadScript { line, kind },
        Err(ScriptError::NoMemory) => return Status::NoMemory,
    };
    write_output(alloc, command, plan, devices, sink)
}

/// Plays the script of the load of a number, and writes the short report of its run.
#[tactic(auto, using(crate::proofs::Loads::never_of_source))]
fn play_load<K: Sink, D: ErrorDevice>(
    alloc: Global,
    n: u16,
    sink: &mut K,
    devices: Vec<D>,
) -> Status
    requires { n ≤ 1000 }
    ensures ok { result ≡ Status.Ok
        → WritesOutput (Command.Load n) (lists_of D.left devices.items) (load_text n) (K.written sink.old)
        (K.written sink.new) }
    ensures write_fault { result ≡ Status.WriteFault → Rose (K.faults sink.old) (K.faults sink.new) }
    ensures front { result ≡ Status.WriteFault
        → WritesFront (Command.Load n) (lists_of D.left devices.items) (load_text n) (K.written sink.old)
        (K.written sink.new) }
    ensures kept { is_write_fault result ≡ false → K.faults sink.new ≡ K.faults sink.old }
    ensures silent { is_silent result ≡ true → sink.new ≡ sink.old }
    ensures answers { Answers (load_text n) result }
    ensures within { length (load_text n) ≤ limit }
    ensures made { is_of_source result ≡ false }
    ensures used { (result ≡ Status.Usage) → ⊥ }
{
    each_load_is_short();
    let Ok(text) = script(alloc, n) else {
        return Status::NoMemory;
    };
    play_text(alloc, Command::Load(n), text.as_slice(), sink, devices)
}

/// Does what a command says with the script that the source gives.
fn play_source<S: Source, K: Sink, D: ErrorDevice>(
    alloc: Global,
    command: Command,
    source: &mut S,
    sink: &mut K,
    devices: Vec<D>,
) -> Status
    ensures ok { result ≡ Status.Ok → IfSome (S.left source.old)
        (λ text. WritesOutput command (lists_of D.left devices.items) text (K.written sink.old) (K.written sink.new)) }
    ensures ended { result ≡ Status.Ok → IsAtEnd (S.left source.new) }
    ensures used { (result ≡ Status.Usage) → ⊥ }
    ensures read_fault { result ≡ Status.ReadFault → Rose (S.faults source.old) (S.faults source.new) }
    ensures too_long { result ≡ Status.TooLong → IfSome (S.left source.old) (λ text. limit < length text) }
    ensures one_too_many { result ≡ Status.TooLong → TakesOneTooMany (S.left source.old) (S.left source.new) limit }
    ensures bad_script { (line : ℕ) (kind : LineFault) → result ≡ Status.BadScript line kind →
        IfSome (S.left source.old) (λ text. IsRefused text line kind) }
    ensures within { is_of_text result ≡ true → IfSome (S.left source.old) (λ text. length text ≤ limit) }
    ensures write_fault { result ≡ Status.WriteFault → Rose (K.faults sink.old) (K.faults sink.new) }
    ensures front { result ≡ Status.WriteFault → IfSome (S.left source.old)
        (λ text. WritesFront command (lists_of D.left devices.items) text (K.written sink.old) (K.written sink.new)) }
    ensures source_kept { is_read_fault result ≡ false → S.faults source.new ≡ S.faults source.old }
    ensures sink_kept { is_write_fault result ≡ false → K.faults sink.new ≡ K.faults sink.old }
    ensures silent { is_silent result ≡ true → sink.new ≡ sink.old }
    ensures complete { (Rose (S.faults source.old) (S.faults source.new) → ⊥) →
        IfSome (S.left source.old) (λ text. Answers text result) }
{
    let text = match read_all(alloc, source, LIMIT) {
        Ok(text) => text,
        Err(ReadAllError::ReadFault) => return Status::ReadFault,
        Err(ReadAllError::TooLong) => return Status::TooLong,
        Err(ReadAllError::NoMemory) => return Status::NoMemory,
    };
    play_text(alloc, command, text.as_slice(), sink, devices)
}

/// The same with devices of any kind.
fn play_with<S: Source, K: Sink, D: ErrorDevice>(
    alloc: Global,
    words: &[&str],
    source: &mut S,
    sink: &mut K,
    devices: Vec<D>,
) -> Status
    ensures ok { result ≡ Status.Ok → IfSome (command_of words.now) (λ command.
        IfSome (input_of command (S.left source.old))
        (λ text. WritesOutput command (lists_of D.left devices.items) text (K.written sink.old) (K.written sink.new))) }
    ensures ended { result ≡ Status.Ok → IfSome (command_of words.now)
        (λ command. reads_source command ≡ true → IsAtEnd (S.left source.new)) }
    ensures usage { (result ≡ Status.Usage) ↔ (command_of words.now ≡ None) }
    ensures read_fault { result ≡ Status.ReadFault → Rose (S.faults source.old) (S.faults source.new) }
    ensures too_long { result ≡ Status.TooLong → IfSome (S.left source.old) (λ text. limit < length text) }
    ensures one_too_many { result ≡ Status.TooLong → TakesOneTooMany (S.left source.old) (S.left source.new) limit }
    ensures bad_script { (line : ℕ) (kind : LineFault) → result ≡ Status.BadScript line kind →
        IfSome (S.left source.old) (λ text. IsRefused text line kind) }
    ensures within { is_of_text result ≡ true → IfSome (command_of words.now) (λ command.
        IfSome (input_of command (S.left source.old)) (λ text. length text ≤ limit)) }
    ensures write_fault { result ≡ Status.WriteFault → Rose (K.faults sink.old) (K.faults sink.new) }
    ensures front { result ≡ Status.WriteFault → IfSome (command_of words.now) (λ command.
        IfSome (input_of command (S.left source.old))
        (λ text. WritesFront command (lists_of D.left devices.items) text (K.written sink.old) (K.written sink.new))) }
    ensures source_kept { is_read_fault result ≡ false → S.faults source.new ≡ S.faults source.old }
    ensures sink_kept { is_write_fault result ≡ false → K.faults sink.new ≡ K.faults sink.old }
    ensures silent { is_silent result ≡ true → sink.new ≡ sink.old }
    ensures unread { result ≡ Status.Usage → source.new ≡ source.old }
    ensures untouched { IfSome (command_of words.now)
        (λ command. reads_source command ≡ false → source.new ≡ source.old) }
    ensures of_none { IfSome (command_of words.now)
        (λ command. reads_source command ≡ false → is_of_source result ≡ false) }
    ensures complete { IfSome (command_of words.now) (λ command.
        (reads_source command ≡ true → Rose (S.faults source.old) (S.faults source.new) → ⊥) →
        IfSome (input_of command (S.left source.old)) (λ text. Answers text result)) }
{
    let Some(command) = command_of(words) else {
        return Status::Usage;
    };
    match command {
        Command::Load(n) => play_load(alloc, n, sink, devices),
        Command::Play(_) | Command::Move => play_source(alloc, command, source, sink, devices),
    }
}

/// Does what the words say, and writes what comes of that to the sink, each line in one write. The words are those
/// behind the program's name:
///
/// - `play` reads a whole script from the source, plays it and writes the full report of its run, `play --trace` the
///   trace before it, and `play --short` the short report in its place;
/// - `load N` plays the script of the load of that number, 0 to 1000, and writes the short report; it reads nothing;
/// - `pages N` plays a script that it reads, and writes a line `page P corrected C uncorrected U` for each page to
///   retire by all copies that were published, with N, 1 to 1000, as the number of corrected errors that is too many;
/// - `move` writes a script that it reads in version 2's form; that form makes the same tries and runs, and its reports
///   are the same but for the version.
///
/// What stands at place K of `devices` acts for the reporter that names K: it is asked for an act at each of its tries,
/// while the reporter is wanted, and is dropped at the first try at which it isn't, or at the end. A reporter whose
/// device isn't there has no acts.
///
/// N is one to four decimal digits, of which zeros may lead. The answers, in the order in which they are looked for:
/// Usage, ReadFault, TooLong, NoMemory, BadScript, NoMemory again, WriteFault. Of `load` come Ok, NoMemory and
/// WriteFault alone. The rules are this project's own.
pub fn play<S: Source, K: Sink>(
    alloc: Global,
    words: &[&str],
    source: &mut S,
    sink: &mut K,
    devices: Vec<Box<dyn ErrorDevice + Send>>,
) -> Status
    // The whole output of the command's script is appended, and nothing is left in the source where it was read.
    ensures ok { result ≡ Status.Ok → IfSome (command_of words.now) (λ command.
        IfSome (input_of command (S.left source.old))
        (λ text. WritesOutput command (lists_of ⟦<Box<dyn ErrorDevice + Send> as ErrorDevice>⟧.left devices.items) text
        (K.written sink.old) (K.written sink.new))) }
    ensures ended { result ≡ Status.Ok → IfSome (command_of words.now)
        (λ command. reads_source command ≡ true → IsAtEnd (S.left source.new)) }

    // Why each other answer comes.
    ensures usage { (result ≡ Status.Usage) ↔ (command_of words.now ≡ None) }
    ensures read_fault { result ≡ Status.ReadFault → Rose (S.faults source.old) (S.faults source.new) }
    ensures too_long { result ≡ Status.TooLong → IfSome (S.left source.old) (λ text. limit < length text) }
    ensures one_too_many { result ≡ Status.TooLong → TakesOneTooMany (S.left source.old) (S.left source.new) limit }
    ensures bad_script { (line : ℕ) (kind : LineFault) → result ≡ Status.BadScript line kind →
        IfSome (S.left source.old) (λ text. IsRefused text line kind) }
    ensures within { is_of_text result ≡ true → IfSome (command_of words.now) (λ command.
        IfSome (input_of command (S.left source.old)) (λ text. length text ≤ limit)) }
    ensures write_fault { result ≡ Status.WriteFault → Rose (K.faults sink.old) (K.faults sink.new) }
    ensures front { result ≡ Status.WriteFault → IfSome (command_of words.now) (λ command.
        IfSome (input_of command (S.left source.old))
        (λ text. WritesFront command (lists_of ⟦<Box<dyn ErrorDevice + Send> as ErrorDevice>⟧.left devices.items) text
        (K.written sink.old) (K.written sink.new))) }

    // No fault is passed over.
    ensures source_kept { is_read_fault result ≡ false → S.faults source.new ≡ S.faults source.old }
    ensures sink_kept { is_write_fault result ≡ false → K.faults sink.new ≡ K.faults sink.old }

    // Before every answer but Ok and WriteFault nothing is written, and before Usage nothing is read.
    ensures silent { is_silent result ≡ true → sink.new ≡ sink.old }
    ensures unread { result ≡ Status.Usage → source.new ≡ source.old }

    // A command that makes its script doesn't touch the source, and no answer tells of one.
    ensures untouched { IfSome (command_of words.now)
        (λ command. reads_source command ≡ false → source.new ≡ source.old) }
    ensures of_none { IfSome (command_of words.now)
        (λ command. reads_source command ≡ false → is_of_source result ≡ false) }

    // Where the source has no fault, if it is read, a script has its one answer, unless memory is wanting or the sink
    // fails.
    ensures complete { IfSome (command_of words.now) (λ command.
        (reads_source command ≡ true → Rose (S.faults source.old) (S.faults source.new) → ⊥) →
        IfSome (input_of command (S.left source.old)) (λ text. Answers text result)) }
{
    play_with(alloc, words, source, sink, devices)
}
