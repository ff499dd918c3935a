//! The phases of a drain, and what a step of it did.

use crate::report::RecordCopy;

/// The phases of a drain, which takes one of them a step: it looks for a signalled record, claims it, reads its
/// registers, publishes a copy of them where no error came between, clears the record, and signals at the end.
#[derive(Clone, Copy, PartialEq, Eq, Debug, Drop)]
pub enum Phase {
    /// Looks for the least signalled record.
    Scan,
    /// Sets read-in-progress of the record, and reads its control.
    Claim,
    /// Reads the record's address.
    Address,
    /// Reads the record's info.
    Info,
    /// Reads the record's supplement.
    Supplement,
    /// Reads the record's time.
    Time,
    /// Reads the record's status, and publishes the copy where read-in-progress is still set.
    Check,
    /// Clears the record where read-in-progress is still set.
    Invalidate,
    /// Signals the event of the greatest level that was published.
    Signal,
}

/// What one step of a drain did.
#[derive(Clone, Copy, PartialEq, Eq, Debug, Drop)]
pub enum DrainNote {
    /// Scan took this record, the least that is signalled.
    Scanned {
        /// The number of the record.
        rec: u8,
    },
    /// Scan found no signalled record.
    Over,
    /// Claim set read-in-progress and read the control.
    Claimed,
    /// A register was read.
    Read {
        /// The register in the order of `RecordCopy`: 2 address, 3 info, 4 supplement, 5 time.
        register: u8,
    },
    /// Check found read-in-progress cleared, since an error had written the record: the record is to be claimed again.
    Torn,
    /// Check published this copy of the record.
    Published {
        /// The six registers of the record.
        copy: RecordCopy,
    },
    /// Invalidate tried to clear the record.
    Invalidated {
        /// Whether it did; it did not where an error had written the record.
        cleared: bool,
    },
    /// The drain ended with a signal.
    Signal {
        /// The greatest level of the copies that were published, 0 to 3, where 0 is no signal.
        level: u8,
    },
}
