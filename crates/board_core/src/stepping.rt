//! The steps of a board that keeps no notes.

ghost use Rattle.std.specs.Prelude.{◌≡◌, ◌<◌, true, length, IsTrue};
ghost use Rattle.board_plan.specs.Notes.{has_text};
ghost use Rattle.board_plan.specs.Step.{hart_step, reporter_step};
ghost use Rattle.board_core.specs.Played.{IsReport, IsSafe, after_hart, after_reporter, is_list, listed, note_if, note_of, state_of};

use crate::brief::Brief;
use board_parts::Outcome;
use board_plan::Step;
use ras_device::Act;

impl Brief {
    /// Makes the step of a hart, which the board has, and says whether it made one; then the outcome is that of the
    /// step. False comes exactly where the hart has none; then nothing changes but maybe the outcome.
    pub fn hart_step(&mut self, hart: u8, outcome: &mut Outcome) -> bool
        requires { hart < self.old.plan.harts }
        ensures next { self.new ≡ after_hart hart self.old }
        ensures note { note_if result outcome.new.note ≡ note_of (hart_step hart self.old.plan (state_of self.old)) }
        ensures text { result ≡ true → IsTrue (has_text outcome.new.note) }
        ensures safe { IsSafe self.new }
    {
        if !self.parts.hart_step(hart, outcome) {
            return false;
        }
        self.log.keep(Step::Hart(hart), &outcome.published);
        self.tally.count(&outcome.note);
        true
    }

    /// Makes the step of a reporter with this act, and says whether it made one; then the outcome is that of the step.
    /// The board has the reporter, the act of a list is what `listed` says, and an error has a priority of at most 3.
    /// False comes exactly where there is no act or the reporter isn't wanted; then nothing changes but maybe the
    /// outcome.
    pub fn reporter_step(&mut self, reporter: u8, act: Option<Act>, outcome: &mut Outcome) -> bool
        requires there { reporter < length self.old.plan.reporters }
        requires list { is_list self.old.plan reporter ≡ true → act ≡ listed self.old reporter }
        requires report { IsReport act }
        ensures next { self.new ≡ after_reporter reporter act self.old }
        ensures note { note_if result outcome.new.note
            ≡ note_of (reporter_step reporter self.old.plan act (state_of self.old)) }
        ensures text { result ≡ true → IsTrue (has_text outcome.new.note) }
        ensures safe { IsSafe self.new }
    {
        let Some(next) = act else {
            // the run stays as it is, and so does what the board says of it
            let _steps = self.steps();
            return false;
        };
        if !self.parts.reporter_step(reporter, act, outcome) {
            return false;
        }
        self.acts[reporter as usize].add(next);
        self.log.keep(Step::Reporter(reporter), &outcome.published);
        self.tally.count(&outcome.note);
        true
    }
}
