//! An error as it is reported, a record's registers, and what logging did.

ghost use Rattle.std.specs.Prelude.{◌≡◌, ◌≤◌, [], ◌∷◌};
ghost use Rattle.reri_fields.specs.Fields.{control_spare};
ghost use Rattle.reri_fields.specs.Records.{Stands, IsRecord};
ghost use Rattle.reri_fields.specs.Words.{registers};

use crate::severity::Severity;
use crate::status::Status;

/// One error, as a reporter gives it. The priority is at most 3: the calls that log it say so.
#[derive(Clone, Copy, PartialEq, Eq, Debug, Drop)]
pub struct Report {
    /// The number of the bank that is to hold it.
    pub bank: u8,
    /// The number of the record in that bank.
    pub rec: u8,
    /// How bad it is.
    pub severity: Severity,
    /// Its place among errors of the same severity, 0 to 3; a greater one writes over a smaller one.
    pub priority: u8,
    /// What kind of error it is.
    pub code: u8,
    /// Where it struck.
    pub address: u64,
    /// More about it, in the reporter's own words.
    pub info: u64,
    /// Still more about it.
    pub supplement: u64,
    /// When it came, in the reporter's own count.
    pub time: u64,
}

/// The six registers of an error record, in their order.
#[derive(Clone, Copy, PartialEq, Eq, Debug, Default, Drop)]
pub struct RecordCopy {
    /// The control word.
    pub control: u64,
    /// The status word.
    pub status: u64,
    /// Where the shown error struck.
    pub address: u64,
    /// The shown error's `info`.
    pub info: u64,
    /// The shown error's `supplement`.
    pub supplement: u64,
    /// When the shown error came.
    pub time: u64,
}

impl RecordCopy {
    /// A record with this control word and count that holds no error, and to which nothing has happened yet.
    pub fn fresh(control: u64, count: u16) -> RecordCopy
        ensures stands { Stands (record { control = control; count = count }) [] result }
        ensures clean { control_spare control ≡ 0 → IsRecord result }
    {
        RecordCopy {
            control,
            status: Status(0).with_count(count).0,
            address: 0,
            info: 0,
            supplement: 0,
            time: 0,
        }
    }

    /// The six registers in their order.
    pub fn registers(&self) -> [u64; 6]
        ensures { result ≡ registers self.now }
    {
        [
            self.control,
            self.status,
            self.address,
            self.info,
            self.supplement,
            self.time,
        ]
    }
}

/// What logging an error did.
#[derive(Clone, Copy, PartialEq, Eq, Debug, Drop)]
pub enum Logged {
    /// The record is not enabled, and nothing changed.
    Disabled,
    /// The error was counted and not logged.
    Counted,
    /// The error is the one that the record shows from now on.
    Wrote {
        /// The signal code of its severity, 0 to 3, where 0 is no signal.
        level: u8,
    },
    /// The error was logged, and the record goes on showing an earlier one.
    Kept,
}
