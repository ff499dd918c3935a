//! Who is told of the steps of a board.

ghost use Rattle.std.specs.Prelude.{IsTrue};
ghost use Rattle.board_plan.specs.Notes.{has_text};
ghost use Rattle.board_plan.specs.Run.{Noted};

use board_plan::{Step, StepNote};

/// Is told of each step of a board as it is made. This project's own.
pub trait Watch {
    // What it is once it was told of a step.
    ghost told: { Self → Noted → Self → Type 0 };

    /// Takes note of a step that was made, and of what it did.
    fn tell(&mut self, by: Step, note: &StepNote)
        requires { IsTrue (has_text note.now) }
        ensures { told self.old (record { by = by; note = note.now }) self.new };
}

/// Keeps nothing of what it is told.
#[derive(Clone, Copy, Debug, Default, PartialEq, Eq)]
pub struct Unheard;

impl Watch for Unheard {
    ghost told = { λ w n v. Unit {0} };

    fn tell(&mut self, _by: Step, _note: &StepNote) {}
}
