//! What each phase does.

ghost use Rattle.std.specs.Prelude.{◌≡◌, ◌≤◌, ◌<◌, ℕ, true, length};
ghost use Rattle.reri_fields.specs.declared.report.RecordCopy.{RecordCopy};
ghost use Rattle.reri_fields.specs.declared.drain.Phase.{Phase};
ghost use Rattle.reri_fields.specs.declared.drain.DrainNote.{DrainNote};
ghost use Rattle.reri_fields.specs.Banks.{copy_level};
ghost use Rattle.reri_fields.specs.Drain.{after_empty_scan, after_invalidate};
ghost use Rattle.ras_drain.specs.Fits.{FitsWhere, HoldsRecord};
ghost use Rattle.ras_drain.specs.Inside.{draining, where_is, IsWithin, Moves, Leaves};

use ghes_block::Slot;
use reri_bank::{Access, Bank};
use reri_fields::{Control, DrainNote, Phase, RecordCopy, Status};

/// Where a drain that is under way is.
#[derive(Clone, Copy, Drop)]
pub struct At {
    /// The phase that its next step takes.
    pub phase: Phase,
    /// The record that it has taken, 0 where it has none.
    pub rec: u8,
    /// How many copies it has published.
    pub published: u8,
    /// The greatest level of these.
    pub level: u8,
}

/// One step of a drain: the phase that it is in.
pub fn advance(
    at: At,
    gather: u8,
    got: &mut RecordCopy,
    bank: &mut Bank,
    slot: &mut Slot,
) -> (Option<At>, DrainNote)
    requires within { IsWithin gather (Some at) }
    requires room { length slot.old ≤ at.published }
    requires fits { FitsWhere (Some (draining at)) got.old bank.old }
    ensures { Leaves at at.phase gather bank.old bank.new slot.old slot.new got.new result.0 result.1 }
{
    match at.phase {
        Phase::Scan => scan(at, bank),
        Phase::Claim => claim(at, got, bank),
        Phase::Address => {
            got.address = bank.copy_of(at.rec).address;
            has_read(at, Phase::Info, 2)
        }
        Phase::Info => {
            got.info = bank.copy_of(at.rec).info;
            has_read(at, Phase::Supplement, 3)
        }
        Phase::Supplement => {
            got.supplement = bank.copy_of(at.rec).supplement;
            has_read(at, Phase::Time, 4)
        }
        Phase::Time => {
            got.time = bank.copy_of(at.rec).time;
            has_read(at, Phase::Check, 5)
        }
        Phase::Check => check(at, got, bank, slot),
        Phase::Invalidate => invalidate(at, gather, bank),
        Phase::Signal => (None, DrainNote::Signal { level: at.level }),
    }
}

/// Looks for the least signalled record. Where there is none, the bank no longer asks, and the drain signals if it has
/// published anything.
fn scan(at: At, bank: &mut Bank) -> (Option<At>, DrainNote)
    ensures { (gather : ℕ) (got : RecordCopy) → gather ≤ 4 → at.published < gather
        → Moves at Phase.Scan gather bank.old bank.new got result.0 result.1 }
{
    match bank.next_signalled() {
        Some(rec) => (
            Some(At {
                phase: Phase::Claim,
                rec,
                ..at
            }),
            DrainNote::Scanned { rec },
        ),
        None => {
            bank.clear_ask();
            (after_empty_scan(at), DrainNote::Over)
        }
    }
}

/// Where a drain is after a Scan that found no record.
#[tactic(auto, unfolding(crate::specs::Inside::is_gathering))]
fn after_empty_scan(at: At) -> Option<At>
    ensures next { where_is result ≡ after_empty_scan (draining at) }
    ensures within { (gather : ℕ) → gather ≤ 4 → IsWithin gather result }
{
    if at.published == 0 {
        return None;
    }
    Some(At {
        phase: Phase::Signal,
        rec: 0,
        ..at
    })
}

/// Sets read-in-progress of the record, and reads its control.
fn claim(at: At, got: &mut RecordCopy, bank: &mut Bank) -> (Option<At>, DrainNote)
    requires { HoldsRecord (draining at) got.old bank.old }
    ensures { (gather : ℕ) → gather ≤ 4 → at.published < gather
        → Moves at Phase.Claim gather bank.old bank.new got.new result.0 result.1 }
{
    bank.access(Access::SetRead { rec: at.rec });
    got.control = bank.copy_of(at.rec).control;
    (
        Some(At {
            phase: Phase::Address,
            ..at
        }),
        DrainNote::Claimed,
    )
}

/// Goes on to the next phase, once a register has been read.
fn has_read(at: At, next: Phase, register: u8) -> (Option<At>, DrainNote)
    ensures { result ≡ (Some (record at { phase = next }), DrainNote.Read register) }
{
    (Some(At { phase: next, ..at }), DrainNote::Read { register })
}

/// Reads the status. Where read-in-progress is still set, the registers that were read go to the slot; where it isn't,
/// an error has written the record, and it is to be claimed again.
fn check(at: At, got: &RecordCopy, bank: &Bank, slot: &mut Slot) -> (Option<At>, DrainNote)
    requires few { length slot.old ≤ at.published }
    requires below { at.published < 4 }
    requires holds { HoldsRecord (record (draining at) { phase = Phase.Check }) got.now bank.now }
    ensures { (gather : ℕ) → gather ≤ 4 → at.published < gather
        → Leaves at Phase.Check gather bank.now bank.now slot.old slot.new got.now result.0 result.1 }
{
    let status = bank.copy_of(at.rec).status;
    if !Status(status).in_progress() {
        return (
            Some(At {
                phase: Phase::Claim,
                ..at
            }),
            DrainNote::Torn,
        );
    }
    let copy = RecordCopy { status, ..*got };
    slot.append(&copy);
    (
        Some(At {
            phase: Phase::Invalidate,
            published: at.published + 1,
            level: at.level.max(level(&copy)),
            ..at
        }),
        DrainNote::Published { copy },
    )
}

/// The level of a copy: the signal code of its greatest severity, 0 where it has none.
#[tactic(auto, unfolding(reri_fields::specs::Banks::copy_level))]
fn level(copy: &RecordCopy) -> u8
    ensures { result ≡ copy_level copy.now }
{
    match Status(copy.status).greatest() {
        Some(severity) => Control(copy.control).level(severity),
        None => 0,
    }
}

/// Clears the record where read-in-progress is still set. The drain looks for a further record while it may gather
/// more.
fn invalidate(at: At, gather: u8, bank: &mut Bank) -> (Option<At>, DrainNote)
    requires few { gather ≤ 4 }
    requires there { at.rec < length bank.old.copies }
    ensures { (got : RecordCopy) → Moves at Phase.Invalidate gather bank.old bank.new got result.0 result.1 }
{
    let cleared = bank.access(Access::Invalidate { rec: at.rec }) == Some(1);
    (
        after_invalidate(at, gather),
        DrainNote::Invalidated { cleared },
    )
}

/// Where a drain is after an Invalidate.
#[tactic(auto, unfolding(crate::specs::Inside::is_gathering))]
fn after_invalidate(at: At, gather: u8) -> Option<At>
    ensures next { where_is result ≡ Some (after_invalidate gather (draining at)) }
    ensures within { gather ≤ 4 → IsWithin gather result }
{
    if at.published < gather {
        return Some(At {
            phase: Phase::Scan,
            rec: 0,
            ..at
        });
    }
    Some(At {
        phase: Phase::Signal,
        ..at
    })
}
