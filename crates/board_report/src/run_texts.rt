//! Whole texts: the reports and the trace of a run, by its parts.

ghost use Rattle.std.specs.Prelude.{◌≡◌, ◌≤◌, ◌∷◌, [], length, Ok, OnOk};
ghost use Rattle.ras_io.specs.Causes.{HasCause, Puts};
ghost use Rattle.ras_text.specs.Lines.{text_of, sink_of};
ghost use Rattle.board_plan.specs.Fates.{fates_of};
ghost use Rattle.board_plan.specs.Run.{Ran, steps_of};
ghost use Rattle.board_plan.specs.Text.{bytes_of, head_line, fates_line, end_line, full_lines};
ghost use Rattle.board_parts.specs.Shows.{Shows};
ghost use Rattle.board_report.specs.Reports.{full_bytes};
ghost use Rattle.board_report.specs.Told.{ArePartsOf, HaveTexts, told_steps};
ghost use Rattle.board_report.specs.Writing.{SamePages, many};

use crate::pages::Pages;
use crate::walks::{
    write_banks, write_events, write_harts, write_schedule, write_steps, write_words,
};
use crate::writes::{write_end, write_fates, write_head};
use board_parts::Parts;
use board_plan::{Fates, Plan, Step, StepNote};
use ras_io::{Sink, SinkFault};
use ras_text::Line;

/// The lines of a short report, on pages of which no write has failed.
fn put_short<K: Sink>(pages: &mut Pages<'_, K>, plan: &Plan, steps: u64, fates: &Fates)
    requires empty { text_of pages.old.line ≡ [] }
    requires going { pages.old.outcome ≡ Ok tt }
    ensures bytes { Puts (K.written (sink_of pages.old.line)) (K.written (sink_of pages.new.line)) pages.new.outcome
        (bytes_of (head_line plan.now steps ∷ fates_line fates.now ∷ end_line ∷ [])) }
    ensures cause { HasCause (K.faults (sink_of pages.old.line)) (K.faults (sink_of pages.new.line)) pages.new.outcome }
    ensures writes { OnOk pages.new.outcome (K.writes (sink_of pages.new.line) ≡ many (K.writes
        (sink_of pages.old.line)) 3) }
    ensures same_pages { SamePages pages.new pages.old }
{
    write_head(pages, plan, steps);
    write_fates(pages, fates);
    write_end(pages);
}

/// The lines of a full report, on pages of which no write has failed.
fn put_full<K: Sink>(
    pages: &mut Pages<'_, K>,
    plan: &Plan,
    parts: &Parts,
    steps: &[Step],
    fates: &Fates,
)
    requires empty { text_of pages.old.line ≡ [] }
    requires going { pages.old.outcome ≡ Ok tt }
    requires parts { ArePartsOf plan.now parts.now }
    requires few { length steps.now ≤ 160000 }
    ensures bytes { (r : Ran) → Shows plan.now r.state parts.now → steps.now ≡ steps_of r.notes
        → fates.now ≡ fates_of plan.now r.notes
        → Puts (K.written (sink_of pages.old.line)) (K.written (sink_of pages.new.line)) pages.new.outcome
        (full_bytes plan.now r) }
    ensures cause { HasCause (K.faults (sink_of pages.old.line)) (K.faults (sink_of pages.new.line)) pages.new.outcome }
    ensures writes { (r : Ran) → Shows plan.now r.state parts.now → steps.now ≡ steps_of r.notes
        → fates.now ≡ fates_of plan.now r.notes → OnOk pages.new.outcome
        (K.writes (sink_of pages.new.line) ≡ many (K.writes (sink_of pages.old.line)) (length
        (full_lines plan.now r))) }
    ensures same_pages { SamePages pages.new pages.old }
{
    write_head(pages, plan, steps.len() as u64);
    write_harts(pages, parts);
    write_events(pages, parts.firmware().table());
    write_banks(pages, parts);
    write_fates(pages, fates);
    write_words(pages, parts.firmware().memory().words());
    write_schedule(pages, steps);
    write_end(pages);
}

/// The lines of a trace, on pages of which no write has failed.
fn put_trace<K: Sink>(pages: &mut Pages<'_, K>, steps: &[Step], notes: &[StepNote])
    requires empty { text_of pages.old.line ≡ [] }
    requires going { pages.old.outcome ≡ Ok tt }
    requires notes { length notes.now ≡ length steps.now }
    requires texts { HaveTexts notes.now }
    ensures bytes { Puts (K.written (sink_of pages.old.line)) (K.written (sink_of pages.new.line)) pages.new.outcome
        (bytes_of (told_steps 1 steps.now notes.now)) }
    ensures cause { HasCause (K.faults (sink_of pages.old.line)) (K.faults (sink_of pages.new.line)) pages.new.outcome }
    ensures writes { OnOk pages.new.outcome
        (K.writes (sink_of pages.new.line) ≡ many (K.writes (sink_of pages.old.line)) (length
        (told_steps 1 steps.now notes.now))) }
    ensures same_pages { SamePages pages.new pages.old }
{
    write_steps(pages, steps, notes);
}

/// Writes the short report of a run of so many steps on the board of a plan, whose errors had these fates; each line
/// is one write. The one fault is the sink's own, of which its count tells; up to there the report was appended.
pub(crate) fn write_short<K: Sink>(
    plan: &Plan,
    steps: u64,
    fates: &Fates,
    sink: &mut K,
) -> Result<(), SinkFault>
    ensures bytes { Puts (K.written sink.old) (K.written sink.new) result
        (bytes_of (head_line plan.now steps ∷ fates_line fates.now ∷ end_line ∷ [])) }
    ensures cause { HasCause (K.faults sink.old) (K.faults sink.new) result }
    ensures writes { OnOk result (K.writes sink.new ≡ many (K.writes sink.old) 3) }
{
    let mut pages = Pages {
        line: Line::new(sink),
        outcome: Ok(()),
    };
    put_short(&mut pages, plan, steps, fates);
    pages.outcome
}

/// Writes the full report of a run on the board of a plan: the parts are those of that board after the run, and the
/// steps and fates are the run's. Each line is one write. The one fault is the sink's own, of which its count tells;
/// up to there the report was appended.
pub(crate) fn write_full<K: Sink>(
    plan: &Plan,
    parts: &Parts,
    steps: &[Step],
    fates: &Fates,
    sink: &mut K,
) -> Result<(), SinkFault>
    requires parts { ArePartsOf plan.now parts.now }
    requires few { length steps.now ≤ 160000 }
    ensures bytes { (r : Ran) → Shows plan.now r.state parts.now → steps.now ≡ steps_of r.notes
        → fates.now ≡ fates_of plan.now r.notes
        → Puts (K.written sink.old) (K.written sink.new) result (full_bytes plan.now r) }
    ensures cause { HasCause (K.faults sink.old) (K.faults sink.new) result }
    ensures writes { (r : Ran) → Shows plan.now r.state parts.now → steps.now ≡ steps_of r.notes
        → fates.now ≡ fates_of plan.now r.notes
        → OnOk result (K.writes sink.new ≡ many (K.writes sink.old) (length (full_lines plan.now r))) }
{
    let mut pages = Pages {
        line: Line::new(sink),
        outcome: Ok(()),
    };
    put_full(&mut pages, plan, parts, steps, fates);
    pages.outcome
}

/// Writes the trace of a run by its steps and their notes, which have texts; each line is one write. The one fault is
/// the sink's own, of which its count tells; up to there the trace was appended.
pub(crate) fn write_trace<K: Sink>(
    steps: &[Step],
    notes: &[StepNote],
    sink: &mut K,
) -> Result<(), SinkFault>
    requires notes { length notes.now ≡ length steps.now }
    requires texts { HaveTexts notes.now }
    ensures bytes { Puts (K.written sink.old) (K.written sink.new) result (bytes_of
        (told_steps 1 steps.now notes.now)) }
    ensures cause { HasCause (K.faults sink.old) (K.faults sink.new) result }
    ensures writes { OnOk result (K.writes sink.new ≡ many (K.writes sink.old) (length
        (told_steps 1 steps.now notes.now))) }
{
    let mut pages = Pages {
        line: Line::new(sink),
        outcome: Ok(()),
    };
    put_trace(&mut pages, steps, notes);
    pages.outcome
}
