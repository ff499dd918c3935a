//! One act of a reporter.

use reri_fields::Report;

/// One act of a reporter. This project's own.
#[derive(Clone, Copy, Debug, PartialEq, Eq)]
pub enum Act {
    /// An error is reported to a record.
    Error(Report),
    /// An event is raised; the hart says which instance of a local event is meant.
    Raise { id: u32, hart: u8 },
}
