//! What an access does to one record.
ghost use Rattle.std.specs.Prelude.{◌≡◌};
ghost use Rattle.reri_fields.specs.Banks.{is_signalled};
ghost use Rattle.reri_fields.specs.Fields.{status_fields};
ghost use Rattle.reri_bank.specs.Registers.{IsClaimed, IsCleared, IsInvalidated};

use reri_fields::{Control, RecordCopy, Status};

/// Sets read-in-progress where the record is valid.
#[tactic(auto, unfolding(crate::specs::Registers::claimed))]
pub fn claim(rec: &mut RecordCopy)
    ensures { IsClaimed rec.old rec.new }
{
    let status = Status(rec.status);
    if status.valid() {
        rec.status = status.with_in_progress(true).0;
    }
}

/// Clears all but control, count and overflow where read-in-progress is set. True where it did.
pub fn invalidate(rec: &mut RecordCopy) -> bool
    ensures answer { result ≡ (status_fields rec.old.status).in_progress }
    ensures change { IsInvalidated rec.old rec.new }
{
    if !Status(rec.status).in_progress() {
        return false;
    }
    *rec = cleared(rec);
    true
}

/// The record with all but control, count and overflow 0.
fn cleared(rec: &RecordCopy) -> RecordCopy
    ensures { IsCleared rec.now result }
{
    let status = Status(rec.status);
    RecordCopy {
        control: rec.control,
        status: Status(0)
            .with_overflow(status.overflow())
            .with_count(status.count())
            .0,
        address: 0,
        info: 0,
        supplement: 0,
        time: 0,
    }
}

/// Whether the record is valid and the control word's code for its greatest severity is not 0.
#[tactic(auto, unfolding(reri_fields::specs::Banks::is_signalled, reri_fields::specs::Banks::copy_level))]
pub fn is_signalled(rec: &RecordCopy) -> bool
    ensures { result ≡ is_signalled rec.now }
{
    let status = Status(rec.status);
    match status.greatest() {
        Some(severity) if status.valid() => Control(rec.control).level(severity) > 0,
        _ => false,
    }
}
