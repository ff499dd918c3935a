//! The control word.
#![tactic(auto, unfolding(crate::specs::Fields::control_fields, crate::specs::Fields::flag))]

ghost use Rattle.std.specs.Prelude.{◌≡◌, ◌<◌, ◌↔◌, IsTrue};
ghost use Rattle.reri_fields.specs.Fields.{control_fields, control_spare, level_of};

use crate::bits::{field, flag_at, with_field, with_flag_at};
use crate::severity::Severity;

/// The control word of an error record: what it logs, and how each severity is signalled. The fields mean what RERI 1.0
/// says of `control_i`, but for `counting`; that field and all places are this project's own.
///
/// The setters take a value that fits its field, and leave every other bit as it was.
#[derive(Clone, Copy, PartialEq, Eq, Debug, Drop)]
pub struct Control(pub u64);

impl Control {
    /// Whether errors are logged at all (bit 0).
    pub fn enable(self) -> bool
        ensures { result ≡ (control_fields self.0).enable }
    {
        flag_at(self.0, 0)
    }

    /// Whether corrected errors are counted, and logged only where the count wraps (bit 1).
    pub fn counting(self) -> bool
        ensures { result ≡ (control_fields self.0).counting }
    {
        flag_at(self.0, 1)
    }

    /// The signal code of corrected errors, 0 to 3 (bits 2 and 3).
    pub fn ce_signal(self) -> u8
        ensures { result ≡ (control_fields self.0).ce_signal }
    {
        field(self.0, 2, 2) as u8
    }

    /// The signal code of uncorrected errors that are deferred, 0 to 3 (bits 4 and 5).
    pub fn ued_signal(self) -> u8
        ensures { result ≡ (control_fields self.0).ued_signal }
    {
        field(self.0, 4, 2) as u8
    }

    /// The signal code of critical uncorrected errors, 0 to 3 (bits 6 and 7).
    pub fn uec_signal(self) -> u8
        ensures { result ≡ (control_fields self.0).uec_signal }
    {
        field(self.0, 6, 2) as u8
    }

    /// The signal code of a severity: 0 none, 1 low priority, 2 high priority, 3 platform specific.
    #[tactic(auto, unfolding(crate::specs::Fields::level_of))]
    pub fn level(self, severity: Severity) -> u8
        ensures { result ≡ level_of (control_fields self.0) severity }
    {
        match severity {
            Severity::Ce => self.ce_signal(),
            Severity::Ued => self.ued_signal(),
            Severity::Uec => self.uec_signal(),
        }
    }

    /// Whether no bit outside the fields is set.
    #[tactic(auto, unfolding(crate::specs::Fields::control_spare))]
    pub fn is_clean(self) -> bool
        ensures { IsTrue result ↔ (control_spare self.0 ≡ 0) }
    {
        field(self.0, 8, 56) == 0
    }
}

#[tactic(auto, using(crate::proofs::Setters::control_set), unfolding(crate::proofs::Places::patched))]
impl Control {
    /// The word with that bit set or cleared.
    pub fn with_enable(self, value: bool) -> Control
        ensures set { control_fields result.0 ≡ record (control_fields self.0) { enable = value } }
        ensures others { control_spare result.0 ≡ control_spare self.0 }
    {
        Control(with_flag_at(self.0, 0, value))
    }

    /// The word with that bit set or cleared.
    pub fn with_counting(self, value: bool) -> Control
        ensures set { control_fields result.0 ≡ record (control_fields self.0) { counting = value } }
        ensures others { control_spare result.0 ≡ control_spare self.0 }
    {
        Control(with_flag_at(self.0, 1, value))
    }

    /// The word with that number.
    pub fn with_ce_signal(self, value: u8) -> Control
        requires { value < 4 }
        ensures set { control_fields result.0 ≡ record (control_fields self.0) { ce_signal = value } }
        ensures others { control_spare result.0 ≡ control_spare self.0 }
    {
        Control(with_field(self.0, 2, 2, value as u64))
    }

    /// The word with that number.
    pub fn with_ued_signal(self, value: u8) -> Control
        requires { value < 4 }
        ensures set { control_fields result.0 ≡ record (control_fields self.0) { ued_signal = value } }
        ensures others { control_spare result.0 ≡ control_spare self.0 }
    {
        Control(with_field(self.0, 4, 2, value as u64))
    }

    /// The word with that number.
    pub fn with_uec_signal(self, value: u8) -> Control
        requires { value < 4 }
        ensures set { control_fields result.0 ≡ record (control_fields self.0) { uec_signal = value } }
        ensures others { control_spare result.0 ≡ control_spare self.0 }
    {
        Control(with_field(self.0, 6, 2, value as u64))
    }
}
