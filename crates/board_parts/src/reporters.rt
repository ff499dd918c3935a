//! The steps of reporters.

ghost use Rattle.std.specs.Prelude.{◌≡◌, ◌<◌, Some, None};
ghost use Rattle.board_plan.specs.declared.plan.Plan.{Plan};
ghost use Rattle.board_plan.specs.State.{BoardState};
ghost use Rattle.board_plan.specs.Step.{on_error, on_raise, reporter_step, wants};
ghost use Rattle.board_parts.specs.Shows.{Shows, AreEarly};
ghost use Rattle.board_parts.specs.Came.{Steps, Takes, IsReport, came, outcome_of, with_act_counted};

use crate::outcome::Outcome;
use crate::parts::Parts;
use crate::signals::raise;
use board_plan::StepNote;
use ras_device::Act;
use reri_fields::Report;

impl Parts {
    /// Reports an error. It is stray where the board has no such bank or record.
    fn on_error(&mut self, report: &Report, note: &mut StepNote)
        requires { report.now.priority < 4 }
        ensures takes { (plan : Plan) (s : BoardState) → Shows plan s self.old → AreEarly s
            → Takes plan s (Some (on_error plan report.now s)) self.new (Some (outcome_of note.new None)) }
        ensures harts { self.new.firmware.events.harts ≡ self.old.firmware.events.harts }
    {
        if self.report(report, note) {
            return;
        }
        *note = StepNote::Error {
            report: *report,
            logged: None,
        };
    }

    /// Raises an event on a hart. It is stray where the board has no such instance.
    fn on_raise(&mut self, id: u32, hart: u8, note: &mut StepNote)
        ensures takes { (plan : Plan) (s : BoardState) → Shows plan s self.old
            → Takes plan s (Some (on_raise id hart s)) self.new (Some (outcome_of note.new None)) }
        ensures harts { self.new.firmware.events.harts ≡ self.old.firmware.events.harts }
    {
        let raised = raise(&mut self.firmware, id, hart);
        *note = StepNote::Raise {
            id,
            hart,
            signalled: raised.is_some(),
        };
    }

    /// Counts an act of a reporter where it is wanted, and says whether it is.
    fn count_act(&mut self, reporter: u8) -> bool
        ensures wanted { (plan : Plan) (s : BoardState) → Shows plan s self.old → wants plan reporter s ≡ result }
        ensures shows { (plan : Plan) (s : BoardState) → Shows plan s self.old
            → Shows plan (with_act_counted reporter s result) self.new }
        ensures harts { self.new.firmware.events.harts ≡ self.old.firmware.events.harts }
    {
        let at = reporter as usize;
        if at >= self.reporters.len() {
            return false;
        }
        if !self.reporters[at].is_wanted(self.limits[at]) {
            return false;
        }
        self.reporters[at].count();
        true
    }

    /// Makes the step of a reporter with this act, whose error has a priority of at most 3, and says what came of it.
    /// False exactly where there is no act or the reporter isn't wanted; then nothing changes but the outcome, of which
    /// nothing is known.
    pub fn reporter_step(&mut self, reporter: u8, act: Option<Act>, outcome: &mut Outcome) -> bool
        requires { IsReport act }
        ensures steps { (plan : Plan) (s : BoardState) → Shows plan s self.old → AreEarly s
            → Steps plan s (reporter_step reporter plan act s) self.new (came result outcome.new) }
        ensures harts { self.new.firmware.events.harts ≡ self.old.firmware.events.harts }
    {
        let Some(act) = &act else {
            return false;
        };
        if !self.count_act(reporter) {
            return false;
        }
        outcome.forget();
        match act {
            Act::Error(report) => {
                self.on_error(report, &mut outcome.note);
                true
            }
            Act::Raise { id, hart } => {
                self.on_raise(*id, *hart, &mut outcome.note);
                true
            }
        }
    }
}
