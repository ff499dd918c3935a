//! The status word.
#![tactic(auto, unfolding(crate::specs::Fields::status_fields, crate::specs::Fields::flag))]

ghost use Rattle.std.specs.Prelude.{◌≡◌, ◌<◌, ◌↔◌, IsTrue};
ghost use Rattle.reri_fields.specs.Fields.{status_fields, status_spare, greatest};

use crate::bits::{field, flag_at, with_field, with_flag_at};
use crate::severity::Severity;

/// The status word of an error record: whether it holds an error, and which. The fields mean what RERI 1.0 says of
/// `status_i`; their places, the count with its overflow, when several errors are told by `multiple`, and that a record
/// which isn't valid reads 0 but for the count and its overflow, are this project's own.
///
/// The setters take a value that fits its field, and leave every other bit as it was.
#[derive(Clone, Copy, PartialEq, Eq, Debug, Drop)]
pub struct Status(pub u64);

impl Status {
    /// Whether the record holds an error (bit 0).
    pub fn valid(self) -> bool
        ensures { result ≡ (status_fields self.0).valid }
    {
        flag_at(self.0, 0)
    }

    /// Whether it holds a corrected error (bit 1).
    pub fn ce(self) -> bool
        ensures { result ≡ (status_fields self.0).ce }
    {
        flag_at(self.0, 1)
    }

    /// Whether it holds an uncorrected error that is deferred (bit 2).
    pub fn ued(self) -> bool
        ensures { result ≡ (status_fields self.0).ued }
    {
        flag_at(self.0, 2)
    }

    /// Whether it holds a critical uncorrected error (bit 3).
    pub fn uec(self) -> bool
        ensures { result ≡ (status_fields self.0).uec }
    {
        flag_at(self.0, 3)
    }

    /// The priority of the shown error, 0 to 3 (bits 4 and 5).
    pub fn priority(self) -> u8
        ensures { result ≡ (status_fields self.0).priority }
    {
        field(self.0, 4, 2) as u8
    }

    /// Whether two or more errors of the greatest severity came (bit 6).
    pub fn multiple(self) -> bool
        ensures { result ≡ (status_fields self.0).multiple }
    {
        flag_at(self.0, 6)
    }

    /// Whether the record is being read: set by a reader, cleared by an error that writes (bit 7).
    pub fn in_progress(self) -> bool
        ensures { result ≡ (status_fields self.0).in_progress }
    {
        flag_at(self.0, 7)
    }

    /// Whether the count has wrapped; it is never cleared by an error (bit 8).
    pub fn overflow(self) -> bool
        ensures { result ≡ (status_fields self.0).overflow }
    {
        flag_at(self.0, 8)
    }

    /// The code of the shown error (bits 16 to 23).
    pub fn code(self) -> u8
        ensures { result ≡ (status_fields self.0).code }
    {
        field(self.0, 16, 8) as u8
    }

    /// How many corrected errors were counted, modulo 65,536 (bits 32 to 47).
    pub fn count(self) -> u16
        ensures { result ≡ (status_fields self.0).count }
    {
        field(self.0, 32, 16) as u16
    }

    /// The greatest severity whose bit is set; None where no severity bit is set.
    #[tactic(auto, unfolding(crate::specs::Fields::greatest))]
    pub fn greatest(self) -> Option<Severity>
        ensures { result ≡ greatest (status_fields self.0) }
    {
        if self.uec() {
            Some(Severity::Uec)
        } else if self.ued() {
            Some(Severity::Ued)
        } else if self.ce() {
            Some(Severity::Ce)
        } else {
            None
        }
    }

    /// Whether no bit outside the fields is set.
    #[tactic(auto, unfolding(crate::specs::Fields::status_spare))]
    pub fn is_clean(self) -> bool
        ensures { IsTrue result ↔ (status_spare self.0 ≡ (0, 0, 0)) }
    {
        field(self.0, 9, 7) == 0 && field(self.0, 24, 8) == 0 && field(self.0, 48, 16) == 0
    }
}

#[tactic(auto, using(crate::proofs::Setters::status_set), unfolding(crate::proofs::Places::patched))]
impl Status {
    /// The word with that bit set or cleared.
    pub fn with_valid(self, value: bool) -> Status
        ensures set { status_fields result.0 ≡ record (status_fields self.0) { valid = value } }
        ensures others { status_spare result.0 ≡ status_spare self.0 }
    {
        Status(with_flag_at(self.0, 0, value))
    }

    /// The word with that bit set or cleared.
    pub fn with_ce(self, value: bool) -> Status
        ensures set { status_fields result.0 ≡ record (status_fields self.0) { ce = value } }
        ensures others { status_spare result.0 ≡ status_spare self.0 }
    {
        Status(with_flag_at(self.0, 1, value))
    }

    /// The word with that bit set or cleared.
    pub fn with_ued(self, value: bool) -> Status
        ensures set { status_fields result.0 ≡ record (status_fields self.0) { ued = value } }
        ensures others { status_spare result.0 ≡ status_spare self.0 }
    {
        Status(with_flag_at(self.0, 2, value))
    }

    /// The word with that bit set or cleared.
    pub fn with_uec(self, value: bool) -> Status
        ensures set { status_fields result.0 ≡ record (status_fields self.0) { uec = value } }
        ensures others { status_spare result.0 ≡ status_spare self.0 }
    {
        Status(with_flag_at(self.0, 3, value))
    }

    /// The word with that number.
    pub fn with_priority(self, value: u8) -> Status
        requires { value < 4 }
        ensures set { status_fields result.0 ≡ record (status_fields self.0) { priority = value } }
        ensures others { status_spare result.0 ≡ status_spare self.0 }
    {
        Status(with_field(self.0, 4, 2, value as u64))
    }

    /// The word with that bit set or cleared.
    pub fn with_multiple(self, value: bool) -> Status
        ensures set { status_fields result.0 ≡ record (status_fields self.0) { multiple = value } }
        ensures others { status_spare result.0 ≡ status_spare self.0 }
    {
        Status(with_flag_at(self.0, 6, value))
    }

    /// The word with that bit set or cleared.
    pub fn with_in_progress(self, value: bool) -> Status
        ensures set { status_fields result.0 ≡ record (status_fields self.0) { in_progress = value } }
        ensures others { status_spare result.0 ≡ status_spare self.0 }
    {
        Status(with_flag_at(self.0, 7, value))
    }

    /// The word with that bit set or cleared.
    pub fn with_overflow(self, value: bool) -> Status
        ensures set { status_fields result.0 ≡ record (status_fields self.0) { overflow = value } }
        ensures others { status_spare result.0 ≡ status_spare self.0 }
    {
        Status(with_flag_at(self.0, 8, value))
    }

    /// The word with that number.
    pub fn with_code(self, value: u8) -> Status
        ensures set { status_fields result.0 ≡ record (status_fields self.0) { code = value } }
        ensures others { status_spare result.0 ≡ status_spare self.0 }
    {
        Status(with_field(self.0, 16, 8, value as u64))
    }

    /// The word with that number.
    pub fn with_count(self, value: u16) -> Status
        ensures set { status_fields result.0 ≡ record (status_fields self.0) { count = value } }
        ensures others { status_spare result.0 ≡ status_spare self.0 }
    {
        Status(with_field(self.0, 32, 16, value as u64))
    }
}
