//! Each line of a report, written to its pages unless a write has failed before.

ghost use Rattle.std.specs.Prelude.{◌≡◌, ◌≤◌, ◌<◌, ◌^◌, ◌∷◌, [], length, IsTrue};
ghost use Rattle.ras_text.specs.Lines.{text_of};
ghost use Rattle.sse_base.specs.Machine.{stack_of};
ghost use Rattle.board_plan.specs.Notes.{has_text};
ghost use Rattle.board_plan.specs.Text.{
  head_line,
  hart_line,
  event_line,
  record_line,
  block_line,
  fates_line,
  word_lines,
  schedule_line,
  end_line,
  trace_line,
};
ghost use Rattle.board_report.specs.Told.{told_line, told_bank};
ghost use Rattle.board_report.specs.Writing.{Adds, SamePages};

use crate::bank_lines::{put_bank, put_block, put_registers};
use crate::hart_lines::{put_event, put_frame, put_hart, put_memory_word};
use crate::pages::Pages;
use crate::run_lines::{put_fates, put_head, put_schedule, put_step};
use board_plan::{BankDecl, Counts, Fates, Plan, Step, StepNote};
use hart_ctx::Saved;
use ras_io::Sink;
use ras_text::put_word;
use reri_fields::{Phase, RecordCopy};
use sbi_sse::Firmware;
use sse_base::{Instance, Slot};

/// What was made, on which board.
pub(crate) fn write_head<K: Sink>(pages: &mut Pages<'_, K>, plan: &Plan, steps: u64)
    requires { text_of pages.old.line ≡ [] }
    ensures empty { text_of pages.new.line ≡ [] }
    ensures wrote { Adds K.written K.faults K.writes pages.old pages.new (head_line plan.now steps ∷ []) }
    ensures same_pages { SamePages pages.new pages.old }
{
    if let Err(_) = pages.outcome {
        return;
    }
    put_head(&mut pages.line, plan, steps);
    pages.end();
}

/// A hart: what it runs, and what is counted of it.
pub(crate) fn write_hart<K: Sink>(
    pages: &mut Pages<'_, K>,
    hart: u8,
    counts: &Counts,
    masked: bool,
    firmware: &Firmware,
)
    requires empty { text_of pages.old.line ≡ [] }
    requires hart { hart < firmware.now.events.harts }
    ensures empty { text_of pages.new.line ≡ [] }
    ensures wrote { Adds K.written K.faults K.writes pages.old pages.new (hart_line hart counts.now masked
        (stack_of hart firmware.now) ∷ []) }
    ensures same_pages { SamePages pages.new pages.old }
{
    if let Err(_) = pages.outcome {
        return;
    }
    put_hart(&mut pages.line, hart, counts, masked, firmware);
    pages.end();
}

/// A handler that runs, by its number from the oldest, 1 and up.
pub(crate) fn write_frame<K: Sink>(
    pages: &mut Pages<'_, K>,
    hart: u8,
    number: u64,
    at: Instance,
    saved: &Saved,
)
    requires { text_of pages.old.line ≡ [] }
    ensures empty { text_of pages.new.line ≡ [] }
    ensures wrote { Adds K.written K.faults K.writes pages.old pages.new (told_line hart number at saved.now ∷ []) }
    ensures same_pages { SamePages pages.new pages.old }
{
    if let Err(_) = pages.outcome {
        return;
    }
    put_frame(&mut pages.line, hart, number, at, saved);
    pages.end();
}

/// An instance with its attributes.
pub(crate) fn write_event<K: Sink>(pages: &mut Pages<'_, K>, slot: &Slot)
    requires { text_of pages.old.line ≡ [] }
    ensures empty { text_of pages.new.line ≡ [] }
    ensures wrote { Adds K.written K.faults K.writes pages.old pages.new (event_line slot.now ∷ []) }
    ensures same_pages { SamePages pages.new pages.old }
{
    if let Err(_) = pages.outcome {
        return;
    }
    put_event(&mut pages.line, slot);
    pages.end();
}

/// A bank, its slot and its drain.
pub(crate) fn write_bank<K: Sink>(
    pages: &mut Pages<'_, K>,
    bank: u8,
    decl: &BankDecl,
    asking: bool,
    copies: &[RecordCopy],
    phase: Option<(Phase, u8)>,
)
    requires { text_of pages.old.line ≡ [] }
    ensures empty { text_of pages.new.line ≡ [] }
    ensures wrote { Adds K.written K.faults K.writes pages.old pages.new
        (told_bank bank decl.now asking copies.now phase ∷ []) }
    ensures same_pages { SamePages pages.new pages.old }
{
    if let Err(_) = pages.outcome {
        return;
    }
    put_bank(&mut pages.line, bank, decl, asking, copies, phase);
    pages.end();
}

/// The status of a record, a word.
fn status_of(copy: &RecordCopy) -> u64
    ensures { result ≡ copy.now.status }
{
    copy.status
}

/// The registers of a record, of which the status is a word whether or not the line goes out.
pub(crate) fn write_registers<K: Sink>(
    pages: &mut Pages<'_, K>,
    bank: u8,
    rec: u8,
    copy: &RecordCopy,
)
    requires { text_of pages.old.line ≡ [] }
    ensures empty { text_of pages.new.line ≡ [] }
    ensures wrote { Adds K.written K.faults K.writes pages.old pages.new (record_line bank rec copy.now ∷ []) }
    ensures word { copy.now.status < 2 ^ 64 }
    ensures same_pages { SamePages pages.new pages.old }
{
    let _status = status_of(copy);
    if let Err(_) = pages.outcome {
        return;
    }
    put_registers(&mut pages.line, bank, rec, copy);
    pages.end();
}

/// Up to 140 bytes of a block.
pub(crate) fn write_block<K: Sink>(pages: &mut Pages<'_, K>, bank: u8, bytes: &[u8])
    requires empty { text_of pages.old.line ≡ [] }
    requires few { length bytes.now ≤ 140 }
    ensures empty { text_of pages.new.line ≡ [] }
    ensures wrote { Adds K.written K.faults K.writes pages.old pages.new (block_line bank bytes.now ∷ []) }
    ensures same_pages { SamePages pages.new pages.old }
{
    if let Err(_) = pages.outcome {
        return;
    }
    put_block(&mut pages.line, bank, bytes);
    pages.end();
}

/// How many errors had each fate.
pub(crate) fn write_fates<K: Sink>(pages: &mut Pages<'_, K>, fates: &Fates)
    requires { text_of pages.old.line ≡ [] }
    ensures empty { text_of pages.new.line ≡ [] }
    ensures wrote { Adds K.written K.faults K.writes pages.old pages.new (fates_line fates.now ∷ []) }
    ensures same_pages { SamePages pages.new pages.old }
{
    if let Err(_) = pages.outcome {
        return;
    }
    put_fates(&mut pages.line, fates);
    pages.end();
}

/// A word of memory, if it isn't 0.
pub(crate) fn write_word<K: Sink>(pages: &mut Pages<'_, K>, addr: u64, word: u64)
    requires { text_of pages.old.line ≡ [] }
    ensures empty { text_of pages.new.line ≡ [] }
    ensures wrote { Adds K.written K.faults K.writes pages.old pages.new (word_lines addr (word ∷ [])) }
    ensures same_pages { SamePages pages.new pages.old }
{
    if word == 0 {
        return;
    }
    if let Err(_) = pages.outcome {
        return;
    }
    put_memory_word(&mut pages.line, addr, word);
    pages.end();
}

/// Up to 16 entries of a schedule.
pub(crate) fn write_entries<K: Sink>(pages: &mut Pages<'_, K>, entries: &[Step])
    requires empty { text_of pages.old.line ≡ [] }
    requires few { length entries.now ≤ 16 }
    ensures empty { text_of pages.new.line ≡ [] }
    ensures wrote { Adds K.written K.faults K.writes pages.old pages.new (schedule_line entries.now ∷ []) }
    ensures same_pages { SamePages pages.new pages.old }
{
    if let Err(_) = pages.outcome {
        return;
    }
    put_schedule(&mut pages.line, entries);
    pages.end();
}

/// The last line.
pub(crate) fn write_end<K: Sink>(pages: &mut Pages<'_, K>)
    requires { text_of pages.old.line ≡ [] }
    ensures empty { text_of pages.new.line ≡ [] }
    ensures wrote { Adds K.written K.faults K.writes pages.old pages.new (end_line ∷ []) }
    ensures same_pages { SamePages pages.new pages.old }
{
    if let Err(_) = pages.outcome {
        return;
    }
    put_word(&mut pages.line, b"end");
    pages.end();
}

/// A step of a trace: its number from 1 on, who made it, and its note, which has a text.
pub(crate) fn write_step<K: Sink>(pages: &mut Pages<'_, K>, number: u64, by: Step, note: &StepNote)
    requires empty { text_of pages.old.line ≡ [] }
    requires has_text { IsTrue (has_text note.now) }
    ensures empty { text_of pages.new.line ≡ [] }
    ensures wrote { Adds K.written K.faults K.writes pages.old pages.new (trace_line number
        (record { by = by; note = note.now }) ∷ []) }
    ensures same_pages { SamePages pages.new pages.old }
{
    if let Err(_) = pages.outcome {
        return;
    }
    put_step(&mut pages.line, number, by, note);
    pages.end();
}
