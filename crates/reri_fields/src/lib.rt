//! The words of a hardware error record: the fields of `control` and `status`, the severities, an error as a
//! reporter gives it, the six registers of a record as one value, and the phases of a drain.
//!
//! Severities, their order and the signal codes are those of RERI 1.0. The places of the bits are this project's own.
#![tactic(auto)]

mod bits;
mod control;
mod drain;
mod report;
mod severity;
mod status;
mod words;

pub use bits::with_flag_at;
pub use control::Control;
pub use drain::{DrainNote, Phase};
pub use report::{Logged, RecordCopy, Report};
pub use severity::Severity;
pub use status::Status;
pub use words::{put_record, record_at};
