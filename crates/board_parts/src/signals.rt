//! The events that a board signals: those of a bank's level, and those that a reporter raises.

ghost use Rattle.std.specs.Prelude.{◌≡◌, Some, option_map, is_some};
ghost use Rattle.sse_base.specs.Ids.{instance_of};
ghost use Rattle.sse_base.specs.Events.{is_on_board};
ghost use Rattle.reri_fields.specs.Drain.BankNote.{Drew};
ghost use Rattle.board_plan.specs.Step.{drain_note, event_signalled, events_after, level_event, on_board, published_by, signal_event};

use crate::outcome::Outcome;
use board_plan::{BankDecl, Published, StepNote};
use reri_fields::DrainNote;
use sbi_sse::{EventId, Firmware, Instance};

/// The high and the low priority RAS events, local and global (SBI 3.0, "Supervisor Software Events", event ids).
const LOCAL_HIGH: u32 = 0x0;

const GLOBAL_HIGH: u32 = 0x8000;

const LOCAL_LOW: u32 = 0x10_0000;

const GLOBAL_LOW: u32 = 0x10_8000;

/// The instance of an event that a hart means: its own, or the global one.
fn instance_of(id: u32, hart: u8) -> Instance
    ensures { result ≡ instance_of id hart }
{
    let id = EventId(id);
    if id.is_global() {
        return Instance::Global { id };
    }
    Instance::Local { id, hart }
}

/// Signals an event on a hart, and says which, where the board has it; else nothing changes.
pub(crate) fn raise(firmware: &mut Firmware, id: u32, hart: u8) -> Option<u32>
    ensures raised { result ≡ on_board hart firmware.old.events (Some id) }
    ensures next { firmware.new ≡ record firmware.old { events = signal_event hart firmware.old.events result } }
    ensures harts { firmware.new.events.harts ≡ firmware.old.events.harts }
    ensures instances { firmware.new.events.instances ≡ firmware.old.events.instances }
{
    if !firmware.raise(instance_of(id, hart)) {
        return None;
    }
    Some(id)
}

/// The event of a level of a bank; None where it has none.
fn level_event(decl: &BankDecl, level: u8) -> Option<u32>
    ensures { result ≡ level_event decl.now level }
{
    match level {
        1 => Some(if decl.global { GLOBAL_LOW } else { LOCAL_LOW }),
        2 => Some(if decl.global { GLOBAL_HIGH } else { LOCAL_HIGH }),
        3 => decl.plat,
        _ => None,
    }
}

/// Signals the event of a level of a bank, on its home hart where it is local, and says which; None where the level
/// has none, or the board hasn't it.
fn signal_level(firmware: &mut Firmware, decl: &BankDecl, level: u8) -> Option<u32>
    ensures signalled { result ≡ event_signalled decl.now firmware.old.events level }
    ensures next { firmware.new ≡ record firmware.old {
      events = signal_event decl.now.home firmware.old.events
          result;
    } }
    ensures harts { firmware.new.events.harts ≡ firmware.old.events.harts }
    ensures instances { firmware.new.events.instances ≡ firmware.old.events.instances }
{
    match level_event(decl, level) {
        Some(id) => raise(firmware, id, decl.home),
        None => None,
    }
}

/// Notes that a drain read the status of a record, torn or not.
fn checked(bank: u8, rec: u8, torn: bool, note: &mut StepNote)
    ensures { note.new ≡ StepNote.Check bank rec torn }
{
    *note = StepNote::Check { bank, rec, torn };
}

/// Says what a step of a bank's drain came to; where the drain is over, its event is signalled.
pub(crate) fn drawn(
    firmware: &mut Firmware,
    decl: &BankDecl,
    bank: u8,
    rec: u8,
    did: &DrainNote,
    outcome: &mut Outcome,
)
    ensures note { outcome.new.note ≡ drain_note bank decl.now firmware.old.events rec did.now }
    ensures published { outcome.new.published ≡ published_by bank (Drew rec did.now) }
    ensures next { firmware.new ≡ record firmware.old {
      events = events_after decl.now firmware.old.events
          (Drew rec did.now);
    } }
    ensures harts { firmware.new.events.harts ≡ firmware.old.events.harts }
    ensures instances { firmware.new.events.instances ≡ firmware.old.events.instances }
{
    outcome.published = None;
    match *did {
        DrainNote::Scanned { rec: found } => outcome.note = StepNote::Scan {
            bank,
            rec: Some(found),
        },
        DrainNote::Over => outcome.note = StepNote::Scan { bank, rec: None },
        DrainNote::Claimed => outcome.note = StepNote::Claim { bank, rec },
        DrainNote::Read { register } => outcome.note = StepNote::Read {
            bank,
            rec,
            register,
        },
        DrainNote::Torn => checked(bank, rec, true, &mut outcome.note),
        DrainNote::Published { copy } => {
            checked(bank, rec, false, &mut outcome.note);
            outcome.published = Some(Published { bank, copy });
        }
        DrainNote::Invalidated { cleared } => outcome.note = StepNote::Invalidate {
            bank,
            rec,
            cleared,
        },
        DrainNote::Signal { level } => outcome.note = StepNote::Signal {
            bank,
            level,
            id: signal_level(firmware, decl, level),
        },
    }
}
