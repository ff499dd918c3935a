//! How the program ends where it doesn't end well.

ghost use Rattle.std.specs.Prelude.{◌≡◌};
ghost use Rattle.board_end.specs.Endings.{number_of, ending};

use board_plan::LineFault;
use board_run::Status;
use ras_io::SinkFault;
use thiserror::Error;

/// Why the program failed. Its text is the one line on standard error. The endings are this project's own.
#[derive(Clone, Copy, Debug, PartialEq, Eq, Error)]
pub enum Failure {
    /// The words are no command.
    #[error("usage: rasboard COMMAND")]
    Usage,
    /// The script is refused at this line.
    #[error("line {line}: {}", word_of(kind))]
    BadScript {
        /// The number of the line, from 1.
        line: u32,
        /// Why it is refused.
        kind: LineFault,
    },
    /// Standard input failed.
    #[error("read fault")]
    ReadFault,
    /// Standard output failed.
    #[error("write fault")]
    WriteFault,
    /// Memory is wanting.
    #[error("out of memory")]
    NoMemory,
    /// The input is over the limit.
    #[error("input too long")]
    TooLong,
}

/// The word for the reason of a refusal.
fn word_of(kind: &LineFault) -> &'static str {
    match kind {
        LineFault::Head => "head",
        LineFault::Word => "word",
        LineFault::Count => "count",
        LineFault::Number => "number",
        LineFault::Range => "range",
        LineFault::Unknown => "unknown",
        LineFault::Twice => "twice",
        LineFault::Full => "full",
    }
}

impl Failure {
    /// The status that the process ends with.
    pub fn number(&self) -> u8
        ensures { result ≡ number_of self.now }
    {
        match self {
            Failure::Usage => 2,
            Failure::BadScript { .. } => 3,
            Failure::ReadFault => 4,
            Failure::WriteFault => 5,
            Failure::NoMemory => 6,
            Failure::TooLong => 8,
        }
    }
}

/// How the program ends, by the answer of the command and by what the flush behind it gave. A flush that
/// fails after a whole report is a write fault.
pub fn ended(status: Status, flushed: Result<(), SinkFault>) -> Result<(), Failure>
    ensures { result ≡ ending status flushed }
{
    match status {
        Status::Ok => flushed.map_err(|_| Failure::WriteFault),
        Status::Usage => Err(Failure::Usage),
        Status::BadScript { line, kind } => Err(Failure::BadScript { line, kind }),
        Status::ReadFault => Err(Failure::ReadFault),
        Status::WriteFault => Err(Failure::WriteFault),
        Status::NoMemory => Err(Failure::NoMemory),
        Status::TooLong => Err(Failure::TooLong),
    }
}
