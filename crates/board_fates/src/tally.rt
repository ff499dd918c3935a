//! A tally of fates.

ghost use Rattle.std.specs.Prelude.{◌≡◌, [], ◌∷◌, ◌++◌, List, false};
ghost use Rattle.board_plan.specs.Plans.{IsPlan};
ghost use Rattle.board_plan.specs.Run.{Noted};
ghost use Rattle.board_plan.specs.Fates.{fates_of};
ghost use Rattle.board_fates.specs.Counted.{mark_at, more, one_made, with_answer, with_mark, with_error, fallen, with_published, with_cleared, with_note};
ghost use Rattle.board_fates.specs.Tallied.{Tallies, IsNext};

use board_plan::{Fates, Plan, Step, StepNote};
use reri_fields::Logged;

/// A mark for each record of a board: 4 banks of up to 64 records each.
const MARKS: usize = 256;

/// How many errors have each fate, and which records show an error that no Check has published.
/// This project's own.
#[derive(Clone, Copy)]
pub struct Tally {
    counts: Fates,
    marks: [bool; MARKS],
}

/// One more, as far as 32 bits go: a run makes far fewer steps.
fn raise(count: &mut u32)
    ensures { count.new ≡ more count.old }
{
    *count = count.saturating_add(1);
}

/// Whether a note may change a tally: most notes of a run don't.
fn tells_of_an_error(note: &StepNote) -> bool
    ensures { (t : Tally) → result ≡ false → with_note note.now t ≡ t }
{
    match *note {
        StepNote::Error { .. } | StepNote::Check { .. } | StepNote::Invalidate { .. } => true,
        _ => false,
    }
}

impl Tally {
    /// Before the first step: no error was made, and no record shows one.
    pub fn new() -> Tally
        ensures { (plan : Plan) → IsPlan plan → Tallies plan [] result }
    {
        let counts = Fates {
            made: 0,
            stray: 0,
            disabled: 0,
            counted: 0,
            drained: 0,
            overwritten: 0,
            kept: 0,
            stands: 0,
        };
        Tally {
            counts,
            marks: [false; MARKS],
        }
    }

    /// How many errors have each fate, by the notes that were counted.
    pub fn fates(&self) -> Fates
        ensures { (plan : Plan) (ns : List Noted) → Tallies plan ns self.now → result ≡ fates_of plan ns }
    {
        self.counts
    }

    /// Counts a note, which is the next of a run.
    #[inline(always)]
    pub fn count(&mut self, note: &StepNote)
        ensures { (plan : Plan) (ns : List Noted) (by : Step) → Tallies plan ns self.old → IsNext plan ns note.now
            → Tallies plan (ns ++ record { by = by; note = note.now } ∷ []) self.new }
    {
        if tells_of_an_error(note) {
            self.add(note);
        }
    }

    /// Does what a note says, whatever it is.
    #[inline(never)]
    fn add(&mut self, note: &StepNote)
        ensures { self.new ≡ with_note note.now self.old }
    {
        match *note {
            StepNote::Error { report, logged } => self.add_error(report.bank, report.rec, logged),
            StepNote::Check { bank, rec, torn } => {
                if !torn {
                    self.add_published(bank, rec);
                }
            }
            StepNote::Invalidate { bank, rec, cleared } => {
                if cleared {
                    self.add_cleared(bank, rec);
                }
            }
            _ => {}
        }
    }

    /// An error was answered so; None where there is no such record.
    fn add_error(&mut self, bank: u8, rec: u8, logged: Option<Logged>)
        ensures { self.new ≡ with_error bank rec logged self.old }
    {
        let mark = self.mark(bank, rec);
        raise(&mut self.counts.made);
        self.add_answer(logged, mark);
        if let Some(Logged::Wrote { .. }) = logged {
            self.set_mark(bank, rec, true);
        }
    }

    /// Counts an answer. An error that writes over one that no Check has published stands in its place.
    fn add_answer(&mut self, logged: Option<Logged>, mark: bool)
        ensures { self.new ≡ record self.old { counts = with_answer logged mark self.old.counts } }
    {
        let counts = &mut self.counts;
        match logged {
            None => raise(&mut counts.stray),
            Some(Logged::Disabled) => raise(&mut counts.disabled),
            Some(Logged::Counted) => raise(&mut counts.counted),
            Some(Logged::Wrote { .. }) if mark => raise(&mut counts.overwritten),
            Some(Logged::Wrote { .. }) => raise(&mut counts.stands),
            Some(Logged::Kept) => raise(&mut counts.kept),
        }
    }

    /// A Check published what a record shows.
    fn add_published(&mut self, bank: u8, rec: u8)
        ensures { self.new ≡ with_published bank rec self.old }
    {
        if self.mark(bank, rec) {
            self.fall(bank, rec);
            raise(&mut self.counts.drained);
        }
    }

    /// An invalidation cleared a record: what it showed, if no Check has published that, stands no longer.
    fn add_cleared(&mut self, bank: u8, rec: u8)
        ensures { self.new ≡ with_cleared bank rec self.old }
    {
        if self.mark(bank, rec) {
            self.fall(bank, rec);
        }
    }

    /// What a marked record shows stands no longer.
    fn fall(&mut self, bank: u8, rec: u8)
        ensures { self.new ≡ fallen bank rec self.old }
    {
        self.counts.stands = self.counts.stands.saturating_sub(1);
        self.set_mark(bank, rec, false);
    }

    /// Whether a record is marked; one that no board can have isn't.
    fn mark(&self, bank: u8, rec: u8) -> bool
        ensures { result ≡ mark_at bank rec self.now }
    {
        let place = 64 * bank as usize + rec as usize;
        if place < MARKS {
            self.marks[place]
        } else {
            false
        }
    }

    /// Marks a record, or takes its mark; one that no board can have stays as it is.
    fn set_mark(&mut self, bank: u8, rec: u8, mark: bool)
        ensures { self.new ≡ with_mark bank rec mark self.old }
    {
        let place = 64 * bank as usize + rec as usize;
        if place < MARKS {
            self.marks[place] = mark;
        }
    }
}
