//! The boards on which workers make steps.

ghost use Rattle.std.specs.Prelude.{◌≡◌, ◌<◌, true, length};
ghost use Rattle.board_plan.specs.Step.{hart_step, reporter_step};
ghost use Rattle.board_core.specs.Played.{
  IsReport,
  Played,
  after_hart,
  after_reporter,
  is_list,
  listed,
  note_if,
  note_of,
  state_of,
};
ghost use Rattle.board_lock.specs.Trying.{is_step};

use crate::replaying::is_step;
use board_core::{Board, Brief};
use board_parts::Outcome;
use ras_device::Act;

/// A board on which workers can make steps: one that keeps the notes of its steps, or a brief one, which is quicker.
/// This project's own.
pub trait Lent: Send + Drop {
    // What was played on it.
    ghost played: { Self → Played };

    /// The board without its notes.
    fn brief(&self) -> &Brief
        ensures { result.now ≡ played self.now };

    /// Makes the step of a hart, which the board has, and says whether it made one; then the outcome has its note.
    fn step_hart(&mut self, hart: u8, outcome: &mut Outcome) -> bool
        requires { hart < (played self.old).plan.harts }
        ensures next { played self.new ≡ after_hart hart (played self.old) }
        ensures note { note_if result outcome.new.note
            ≡ note_of (hart_step hart (played self.old).plan (state_of (played self.old))) }
        ensures made { result ≡ is_step (note_if result outcome.new.note) };

    /// Makes the step of a reporter with this act, and says whether it made one; then the outcome has its note. The
    /// board has the reporter, the act of a list is what `listed` says, and an error has a priority of at most 3.
    fn step_reporter(&mut self, reporter: u8, act: Option<Act>, outcome: &mut Outcome) -> bool
        requires there { reporter < length (played self.old).plan.reporters }
        requires list { is_list (played self.old).plan reporter ≡ true → act ≡ listed (played self.old) reporter }
        requires report { IsReport act }
        ensures next { played self.new ≡ after_reporter reporter act (played self.old) }
        ensures note { note_if result outcome.new.note
            ≡ note_of (reporter_step reporter (played self.old).plan act (state_of (played self.old))) }
        ensures made { result ≡ is_step (note_if result outcome.new.note) };
}

#[tactic(auto, using(crate::proofs::Noting::made_text))]
impl Lent for Brief {
    ghost played = { λ b. b };

    fn brief(&self) -> &Brief {
        self
    }

    fn step_hart(&mut self, hart: u8, outcome: &mut Outcome) -> bool {
        self.hart_step(hart, outcome)
    }

    fn step_reporter(&mut self, reporter: u8, act: Option<Act>, outcome: &mut Outcome) -> bool {
        self.reporter_step(reporter, act, outcome)
    }
}

#[tactic(auto, using(crate::proofs::Noting::told, crate::proofs::Noting::told_made))]
impl Lent for Board {
    ghost played = { λ b. b };

    fn brief(&self) -> &Brief {
        Board::brief(self)
    }

    fn step_hart(&mut self, hart: u8, outcome: &mut Outcome) -> bool {
        outcome.note = self.hart_step(hart);
        is_step(&outcome.note)
    }

    fn step_reporter(&mut self, reporter: u8, act: Option<Act>, outcome: &mut Outcome) -> bool {
        outcome.note = self.reporter_step(reporter, act);
        is_step(&outcome.note)
    }
}
