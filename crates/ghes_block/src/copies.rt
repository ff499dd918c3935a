//! What a block says of the copies in it.

ghost use Rattle.std.specs.Prelude.{◌≡◌, ◌↔◌, ◌+◌, ◌*◌, ◌<◌, ◌≤◌, IsTrue, length, count_by, if◌then◌else◌};
ghost use Rattle.std.specs.List.{list_any};
ghost use Rattle.reri_fields.specs.Block.{AreCopies, AreWords, IsCopy, are_several, block_status, error_severity, has_worst};
ghost use Rattle.ghes_block.specs.Sections.{is_of, is_repeated};

use reri_fields::{Control, RecordCopy, Severity, Status};

/// How many copies a block holds at most (this project).
pub const MOST_COPIES: usize = 4;

/// Whether a block can hold the copy: a valid one with a severity, whose control and status have all their set bits
/// inside fields (this project).
pub fn is_copy(copy: &RecordCopy) -> bool
    ensures { IsTrue result ↔ IsCopy copy.now }
{
    let control = Control(copy.control);
    let status = Status(copy.status);
    status.valid() && status.greatest().is_some() && status.is_clean() && control.is_clean()
}

/// Whether a block can hold the copy, whose registers are words of 64 bits.
fn fits(copy: RecordCopy) -> bool
    ensures { IsTrue result ↔ (IsCopy copy × AreWords copy) }
{
    is_copy(&copy)
}

/// Whether a block can hold each of the copies.
pub(crate) fn are_copies(copies: &[RecordCopy]) -> bool
    ensures { IsTrue result ↔ AreCopies copies.now }
{
    for copy in copies {
        if !fits(*copy) {
            return false;
        }
    }
    true
}

/// Whether a copy is a corrected error, or an uncorrected one.
fn is_of(copy: &RecordCopy, corrected: bool) -> bool
    ensures { result ≡ is_of corrected copy.now }
{
    match Status(copy.status).greatest() {
        Some(Severity::Ce) => corrected,
        Some(Severity::Ued) => !corrected,
        Some(Severity::Uec) => !corrected,
        None => false,
    }
}

/// How many copies are of this kind.
fn count_of(copies: &[RecordCopy], corrected: bool) -> usize
    ensures count { result ≡ count_by (is_of corrected) copies.now }
    ensures at_most { result ≤ length copies.now }
{
    let mut count = 0;
    for copy in copies {
        if is_of(copy, corrected) {
            count += 1;
        }
    }
    count
}

/// Whether a copy is of this kind, and two or more errors of its greatest severity came.
#[tactic(auto, unfolding(crate::specs::Sections::is_repeated))]
fn is_repeated(copy: &RecordCopy, corrected: bool) -> bool
    ensures { result ≡ is_repeated corrected copy.now }
{
    is_of(copy, corrected) && Status(copy.status).multiple()
}

/// Whether for some copy of this kind two or more errors of its greatest severity came.
fn some_repeated(copies: &[RecordCopy], corrected: bool) -> bool
    ensures { result ≡ list_any (is_repeated corrected) copies.now }
{
    for copy in copies {
        if is_repeated(copy, corrected) {
            return true;
        }
    }
    false
}

/// The two bits of one kind in Block Status: whether there are such copies, and four times that where there are
/// several.
#[tactic(auto, using(crate::proofs::StatusBits::any_counted, crate::proofs::StatusBits::several_is))]
fn kind_bits(copies: &[RecordCopy], corrected: bool) -> u32
    ensures bits { result ≡ (if list_any (is_of corrected) copies.now then 1
        else 0) + (if are_several (is_of corrected) copies.now then 4 else 0) }
    ensures at_most { result ≤ 5 }
{
    let count = count_of(copies, corrected);
    let any = if count > 0 { 1 } else { 0 };
    let several = count > 1 || some_repeated(copies, corrected);
    any + if several { 4 } else { 0 }
}

/// Block Status of a block that holds these copies.
#[tactic(auto, using(crate::proofs::StatusBits::status_is))]
pub(crate) fn block_status(copies: &[RecordCopy]) -> u32
    requires { length copies.now ≤ 4 }
    ensures { result ≡ block_status copies.now }
{
    let entries = copies.len() as u32;
    kind_bits(copies, false) + 2 * kind_bits(copies, true) + 16 * entries
}

/// Whether some copy's greatest severity is this one.
fn some_worst(copies: &[RecordCopy], severity: Severity) -> bool
    ensures { result ≡ list_any (has_worst severity) copies.now }
{
    for copy in copies {
        if has_worst(copy, severity) {
            return true;
        }
    }
    false
}

/// Whether a copy's greatest severity is this one.
#[tactic(auto, unfolding(reri_fields::specs::Block::has_worst, reri_fields::specs::Block::is_worst))]
fn has_worst(copy: &RecordCopy, severity: Severity) -> bool
    ensures { result ≡ has_worst severity copy.now }
{
    match (severity, Status(copy.status).greatest()) {
        (Severity::Ce, Some(Severity::Ce)) => true,
        (Severity::Ued, Some(Severity::Ued)) => true,
        (Severity::Uec, Some(Severity::Uec)) => true,
        _ => false,
    }
}

/// Error Severity of these copies: fatal, recoverable or corrected.
#[tactic(auto, unfolding(reri_fields::specs::Block::error_severity))]
pub(crate) fn error_severity(copies: &[RecordCopy]) -> u32
    ensures { result ≡ error_severity copies.now }
{
    if some_worst(copies, Severity::Uec) {
        1
    } else if some_worst(copies, Severity::Ued) {
        0
    } else {
        2
    }
}
