//! The lines of a run: its head, its steps, the fates of its errors, and its trace.

ghost use Rattle.std.specs.Prelude.{◌≡◌, ◌+◌, ◌≤◌, ◌++◌, ◌∷◌, [], length, IsTrue};
ghost use Rattle.ras_text.specs.Lines.{text_of, sink_of, SameSink};
ghost use Rattle.board_plan.specs.Notes.{has_text};
ghost use Rattle.board_plan.specs.Text.{
  head_line,
  fates_line,
  actor_text,
  entry_text,
  schedule_line,
  trace_line,
};

use crate::fields::put_dec_field;
use board_plan::{Fates, Plan, Step, StepNote, note_text};
use ras_io::Sink;
use ras_text::{Line, put_byte, put_dec, put_word};

/// What was made, on which board.
#[tactic(auto, unfolding(board_plan::specs::Text::head_line))]
pub(crate) fn put_head<K: Sink>(line: &mut Line<'_, K>, plan: &Plan, steps: u64)
    requires { text_of line.old ≡ [] }
    ensures text { text_of line.new ≡ head_line plan.now steps }
    ensures room { length (text_of line.new) ≤ 512 }
    ensures sink { sink_of line.new ≡ sink_of line.old }
    ensures same_sink { SameSink line.new line.old }
{
    put_word(line, b"board ");
    put_dec(line, u64::from(plan.version));
    put_dec_field(line, b"harts", u64::from(plan.harts));
    put_dec_field(line, b"banks", plan.banks.as_slice().len() as u64);
    put_dec_field(line, b"reporters", plan.reporters.as_slice().len() as u64);
    put_dec_field(line, b"steps", steps);
}

/// How many errors had each fate.
#[tactic(auto, unfolding(board_plan::specs::Text::fates_line))]
pub(crate) fn put_fates<K: Sink>(line: &mut Line<'_, K>, fates: &Fates)
    requires { text_of line.old ≡ [] }
    ensures text { text_of line.new ≡ fates_line fates.now }
    ensures room { length (text_of line.new) ≤ 512 }
    ensures sink { sink_of line.new ≡ sink_of line.old }
    ensures same_sink { SameSink line.new line.old }
{
    put_word(line, b"fates");
    put_dec_field(line, b"made", u64::from(fates.made));
    put_dec_field(line, b"stray", u64::from(fates.stray));
    put_dec_field(line, b"disabled", u64::from(fates.disabled));
    put_dec_field(line, b"counted", u64::from(fates.counted));
    put_dec_field(line, b"drained", u64::from(fates.drained));
    put_dec_field(line, b"overwritten", u64::from(fates.overwritten));
    put_dec_field(line, b"kept", u64::from(fates.kept));
    put_dec_field(line, b"stands", u64::from(fates.stands));
}

/// An actor: `h` or `r`, and its number.
#[inline]
fn put_actor<K: Sink>(line: &mut Line<'_, K>, step: Step)
    requires { length (text_of line.old) + 21 ≤ 512 }
    ensures text { text_of line.new ≡ text_of line.old ++ actor_text step }
    ensures room { length (text_of line.new) ≤ length (text_of line.old) + 21 }
    ensures sink { sink_of line.new ≡ sink_of line.old }
    ensures same_sink { SameSink line.new line.old }
{
    match step {
        Step::Hart(hart) => {
            put_byte(line, b'h');
            put_dec(line, u64::from(hart));
        }
        Step::Reporter(reporter) => {
            put_byte(line, b'r');
            put_dec(line, u64::from(reporter));
        }
    }
}

/// An entry of a schedule.
#[inline]
fn put_entry<K: Sink>(line: &mut Line<'_, K>, step: Step)
    requires { length (text_of line.old) + 22 ≤ 512 }
    ensures text { text_of line.new ≡ text_of line.old ++ entry_text step }
    ensures room { length (text_of line.new) ≤ length (text_of line.old) + 22 }
    ensures sink { sink_of line.new ≡ sink_of line.old }
    ensures same_sink { SameSink line.new line.old }
{
    put_byte(line, b' ');
    put_actor(line, step);
}

/// Up to 16 entries of a schedule.
#[tactic(auto, unfolding(board_plan::specs::Text::schedule_line))]
pub(crate) fn put_schedule<K: Sink>(line: &mut Line<'_, K>, entries: &[Step])
    requires empty { text_of line.old ≡ [] }
    requires few { length entries.now ≤ 16 }
    ensures text { text_of line.new ≡ schedule_line entries.now }
    ensures room { length (text_of line.new) ≤ 512 }
    ensures sink { sink_of line.new ≡ sink_of line.old }
    ensures same_sink { SameSink line.new line.old }
{
    put_word(line, b"schedule");
    for entry in entries {
        put_entry(line, *entry);
    }
}

/// A step of a trace: its number from 1 on, who made it, and its note, which has a text.
#[tactic(auto, unfolding(board_plan::specs::Text::trace_line))]
pub(crate) fn put_step<K: Sink>(line: &mut Line<'_, K>, number: u64, by: Step, note: &StepNote)
    requires empty { text_of line.old ≡ [] }
    requires has_text { IsTrue (has_text note.now) }
    ensures text { text_of line.new ≡ trace_line number (record { by = by; note = note.now }) }
    ensures room { length (text_of line.new) ≤ 512 }
    ensures sink { sink_of line.new ≡ sink_of line.old }
    ensures same_sink { SameSink line.new line.old }
{
    put_dec(line, number);
    put_byte(line, b' ');
    put_actor(line, by);
    put_byte(line, b' ');
    note_text(line, note);
}
