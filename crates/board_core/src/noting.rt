//! How a board keeps the notes of its run.

ghost use Rattle.std.specs.Prelude.{◌≡◌, ◌<◌, true, IfOk, length, map};
ghost use Rattle.board_plan.specs.Plans.{IsPlan};
ghost use Rattle.board_plan.specs.Step.{hart_step, reporter_step};
ghost use Rattle.board_core.specs.Played.{AreListsReports, IsReport, IsSafe, after_hart, after_reporter, fresh, is_list, listed, note_of, own_run, state_of};

use crate::board::Board;
use crate::brief::Brief;
use crate::kept::Kept;
use board_parts::Outcome;
use board_plan::{Plan, StepNote};
use ras_device::Act;
use ras_io::NoMemory;
use std::alloc::Global;

impl Board {
    /// A board of a plan before its first step. It takes all memory that its steps need. `NoMemory` comes only where no
    /// room was found for it.
    pub fn new(alloc: Global, plan: &Plan) -> Result<Board, NoMemory>
        requires plan { IsPlan plan.now }
        requires reports { AreListsReports plan.now }
        ensures fresh { IfOk result (λ b. b ≡ fresh plan.now) }
        ensures safe { IfOk result (λ b. IsSafe b) }
    {
        let plan = plan.copy(alloc)?;
        let brief = Brief::new(alloc, plan)?;
        let notes = Kept::new(alloc, brief.places())?;
        Ok(Board { brief, notes })
    }

    /// The same board without its notes.
    pub fn brief(&self) -> &Brief
        ensures { result.now ≡ self.now }
    {
        &self.brief
    }

    /// What each step did, in the order of the steps.
    pub fn notes(&self) -> &[StepNote]
        ensures { result.now ≡ map (λ n. n.note) (own_run self.now).notes }
    {
        self.notes.items.as_slice()
    }

    /// Makes the step of a hart, which the board has, and says what it did. `Idle` comes exactly where the hart has
    /// none; then nothing changes.
    pub fn hart_step(&mut self, hart: u8) -> StepNote
        requires { hart < self.old.plan.harts }
        ensures next { self.new ≡ after_hart hart self.old }
        ensures note { result ≡ note_of (hart_step hart self.old.plan (state_of self.old)) }
        ensures safe { IsSafe self.new }
    {
        let mut outcome = Outcome::new();
        if !self.brief.hart_step(hart, &mut outcome) {
            return StepNote::Idle;
        }
        let _steps = self.brief.steps();
        self.notes.push(outcome.note);
        outcome.note
    }

    /// Makes the step of a reporter with this act, and says what it did. The board has the reporter, the act of a list
    /// is what `listed` says, and an error has a priority of at most 3. `Idle` comes exactly where there is no act or
    /// the reporter isn't wanted; then nothing changes.
    pub fn reporter_step(&mut self, reporter: u8, act: Option<Act>) -> StepNote
        requires there { reporter < length self.old.plan.reporters }
        requires list { is_list self.old.plan reporter ≡ true → act ≡ listed self.old reporter }
        requires report { IsReport act }
        ensures next { self.new ≡ after_reporter reporter act self.old }
        ensures note { result ≡ note_of (reporter_step reporter self.old.plan act (state_of self.old)) }
        ensures safe { IsSafe self.new }
    {
        let mut came = Outcome::new();
        if !self.brief.reporter_step(reporter, act, &mut came) {
            return StepNote::Idle;
        }
        let _steps = self.brief.steps();
        self.notes.push(came.note);
        came.note
    }
}
