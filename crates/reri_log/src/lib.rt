//! Logging an error into an error record.
//!
//! A record shows the first error of greatest rank since it was last cleared: a greater severity goes first, and then a
//! greater priority. These rules follow RERI 1.0 (the rules for overwriting an error record, and read-in-progress in
//! `status_i`). That an error of equal rank is kept out, and that an error which is only counted is not logged, is this
//! project's own.
#![tactic(auto)]

ghost use Rattle.std.specs.Prelude.{◌≡◌, ℕ, ◌+◌, ◌<◌, ◌≤◌, List, ◌∷◌, length, if◌then◌else◌};
ghost use Rattle.reri_fields.specs.Fields.{status_fields, status_spare, severity_number};
ghost use Rattle.reri_fields.specs.Records.{Event, Origin, AllBefore, Stands, is_counted};
ghost use Rattle.reri_fields.specs.Records.Event.{Reported};
ghost use Rattle.reri_fields.specs.Outcome.{outcome};
ghost use Rattle.reri_fields.specs.Words.{copy_at, OneRecordChanges};
ghost use Rattle.reri_log.specs.Update.{Updates, CountsUp, EntersInto, top, rank, wins, multiple_after, with_severity, marked, filled};

pub use reri_fields::Logged;
use reri_fields::{Control, RecordCopy, Report, Severity, Status, put_record, record_at};

/// Logs one error into a record's registers, and says what became of it.
///
/// - `Disabled`: the control word's enable bit is 0. Nothing changes.
/// - `Counted`: the error is a CE under counting, and the count went up by 1 without wrapping. Nothing else changes.
/// - `Wrote`: the error was logged and is the one that the record shows now. Read-in-progress is cleared. The level is
///   the control word's signal code for the error's severity.
/// - `Kept`: the error was logged, and the record goes on showing an earlier one of at least its rank.
pub fn log(rec: &mut RecordCopy, report: &Report) -> Logged
    requires { report.now.priority < 4 }

    // For every history that the registers stand for, they stand afterwards for that history with this error as its
    // newest event, and the answer is what the history says became of the error.
    ensures stands { (origin : Origin) (history : List Event) (step : ℕ) → AllBefore step history
        → Stands origin history rec.old
        → Stands origin (Reported (record { step = step; report = report.now }) ∷ history) rec.new }
    ensures answer { (origin : Origin) (history : List Event) (step : ℕ) → AllBefore step history
        → Stands origin history rec.old
        → result ≡ outcome origin history (record { step = step; report = report.now }) }

    // The same for any registers, also those that stand for no history.
    ensures registers { Updates rec.old report.now rec.new result }
{
    if !Control(rec.control).enable() {
        return Logged::Disabled;
    }
    if count_up(rec, report) {
        return Logged::Counted;
    }
    enter(rec, report)
}

/// Logs one error into the record that stands in `words` from the place `at` on, and says what became of it, just as
/// `log` does. No word but those six changes.
pub fn log_words(words: &mut [u64], at: usize, report: &Report) -> Logged
    requires priority { report.now.priority < 4 }
    requires room { at + 6 ≤ length words.old }
    ensures stands { (origin : Origin) (history : List Event) (step : ℕ) → AllBefore step history
        → Stands origin history (copy_at words.old at)
        → Stands origin (Reported (record { step = step; report = report.now }) ∷ history) (copy_at words.new at) }
    ensures answer { (origin : Origin) (history : List Event) (step : ℕ) → AllBefore step history
        → Stands origin history (copy_at words.old at)
        → result ≡ outcome origin history (record { step = step; report = report.now }) }

    // The same for any registers.
    ensures registers { OneRecordChanges (λ old new. Updates old report.now new result) at words.old words.new }
{
    let mut rec = record_at(words, at);
    let answer = log(&mut rec, report);
    put_record(words, at, &rec);
    answer
}

/// Counts the error where the record counts it. True where that is all, since the count did not wrap.
#[tactic(auto, unfolding(crate::specs::Update::count_after, crate::specs::Update::stays_counted))]
fn count_up(rec: &mut RecordCopy, report: &Report) -> bool
    ensures { CountsUp rec.old report.now rec.new result }
{
    if !is_counted(Control(rec.control), report) {
        return false;
    }
    let status = Status(rec.status);
    let count = status.count();
    if count < u16::MAX {
        rec.status = status.with_count(count + 1).0;
        return true;
    }
    rec.status = status.with_count(0).with_overflow(true).0;
    false
}

/// Whether a record with this control word counts the error.
#[tactic(auto, unfolding(reri_fields::specs::Records::is_counted, reri_fields::specs::Records::is_ce))]
fn is_counted(control: Control, report: &Report) -> bool
    ensures { result ≡ is_counted control.0 report.now }
{
    control.enable() && control.counting() && matches!(report.severity, Severity::Ce)
}

/// Enters an error that is logged: its severity's bit, multiple occurrence, and all that tells of it where it wins.
#[tactic(auto, unfolding(crate::specs::Update::entered, crate::specs::Update::is_written))]
fn enter(rec: &mut RecordCopy, report: &Report) -> Logged
    requires { report.now.priority < 4 }
    ensures { EntersInto rec.old report.now rec.new result }
{
    let before = Status(rec.status);
    let status = mark(before, report.severity);
    if !wins(before, report) {
        rec.status = status.0;
        return Logged::Kept;
    }
    rec.status = fill(status, report).0;
    rec.address = report.address;
    rec.info = report.info;
    rec.supplement = report.supplement;
    rec.time = report.time;
    Logged::Wrote {
        level: Control(rec.control).level(report.severity),
    }
}

/// Whether the error takes the place of the one that is shown.
#[tactic(auto, using(crate::proofs::Entered::priority_below), unfolding(crate::specs::Update::wins))]
fn wins(status: Status, report: &Report) -> bool
    requires { report.now.priority < 4 }
    ensures { result ≡ wins (status_fields status.0) report.now }
{
    match top(status) {
        None => true,
        Some(severity) => rank(severity, status.priority())
            < rank(report.severity, report.priority),
    }
}

/// The word with the severity's bit set, and multiple occurrence as it is then.
#[tactic(auto, unfolding(crate::specs::Update::marked))]
fn mark(status: Status, severity: Severity) -> Status
    ensures set { status_fields result.0 ≡ marked (status_fields status.0) severity }
    ensures others { status_spare result.0 ≡ status_spare status.0 }
{
    with_severity(status, severity).with_multiple(multiple_after(status, severity))
}

/// The word with what tells of the shown error.
#[tactic(auto, unfolding(crate::specs::Update::filled))]
fn fill(status: Status, report: &Report) -> Status
    requires { report.now.priority < 4 }
    ensures set { status_fields result.0 ≡ filled (status_fields status.0) report.now }
    ensures others { status_spare result.0 ≡ status_spare status.0 }
{
    status
        .with_valid(true)
        .with_priority(report.priority)
        .with_code(report.code)
        .with_in_progress(false)
}

/// The greatest severity of a valid record; None where it is not valid or has no severity.
#[tactic(auto, unfolding(crate::specs::Update::top))]
fn top(status: Status) -> Option<Severity>
    ensures { result ≡ top (status_fields status.0) }
{
    if status.valid() {
        status.greatest()
    } else {
        None
    }
}

/// Multiple occurrence once an error of this severity is there too.
#[tactic(auto, unfolding(crate::specs::Update::multiple_after))]
fn multiple_after(status: Status, severity: Severity) -> bool
    ensures { result ≡ multiple_after (status_fields status.0) severity }
{
    match top(status) {
        None => false,
        Some(before) if number(before) < number(severity) => false,
        Some(before) if number(before) == number(severity) => true,
        Some(_) => status.multiple(),
    }
}

/// The word with the severity's bit set.
#[tactic(auto, unfolding(crate::specs::Update::with_severity))]
fn with_severity(status: Status, severity: Severity) -> Status
    ensures set { status_fields result.0 ≡ with_severity severity (status_fields status.0) }
    ensures others { status_spare result.0 ≡ status_spare status.0 }
{
    match severity {
        Severity::Ce => status.with_ce(true),
        Severity::Ued => status.with_ued(true),
        Severity::Uec => status.with_uec(true),
    }
}

/// The rank of an error, its severity first.
#[tactic(auto, unfolding(crate::specs::Update::rank))]
fn rank(severity: Severity, priority: u8) -> u8
    requires { priority < 4 }
    ensures { result ≡ rank severity priority }
{
    4 * number(severity) + priority
}

/// The severity as a number that rises with it.
#[tactic(auto, unfolding(reri_fields::specs::Fields::severity_number))]
fn number(severity: Severity) -> u8
    ensures value { result ≡ severity_number severity }
    ensures bound { result < 3 }
{
    match severity {
        Severity::Ce => 0,
        Severity::Ued => 1,
        Severity::Uec => 2,
    }
}
