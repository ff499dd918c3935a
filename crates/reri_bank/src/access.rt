//! What a reader can ask of a bank.

/// One access to a bank's registers.
#[derive(Clone, Copy, PartialEq, Eq, Debug, Drop)]
pub enum Access {
    /// Reads one register of a record.
    Read {
        /// The number of the record.
        rec: u8,
        /// The register, 0 to 5: control, status, address, info, supplement, time.
        register: u8,
    },
    /// Reads the summary: bit k is 1 where record k is valid.
    Summary,
    /// Sets read-in-progress of a record where the record is valid, and reads its status afterwards.
    SetRead {
        /// The number of the record.
        rec: u8,
    },
    /// Clears a record where its read-in-progress is set, and says by 1 or 0 whether it did.
    Invalidate {
        /// The number of the record.
        rec: u8,
    },
}
