//! What the top call answers.

use board_plan::LineFault;

/// How a command ended. This project's own.
#[derive(Clone, Copy, Debug, PartialEq, Eq)]
pub enum Status {
    /// All that the command writes was written.
    Ok,
    /// The words are no command.
    Usage,
    /// The script is refused at this line, counted from 1, for this reason.
    BadScript { line: u32, kind: LineFault },
    /// The source failed.
    ReadFault,
    /// The sink failed; a front of what the command writes was written.
    WriteFault,
    /// Memory is wanting, and nothing was written. It comes before the first step, but of `pages` also after the last.
    NoMemory,
    /// The input is longer than 1,048,576 bytes.
    TooLong,
}
