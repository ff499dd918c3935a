//! What a step came to.

ghost use Rattle.std.specs.Prelude.{◌≡◌, None};

use board_plan::{Published, StepNote};

/// The note of a step, and the copy that it published.
#[derive(Clone, Copy, Debug, PartialEq, Eq)]
pub struct Outcome {
    /// What the step did.
    pub note: StepNote,
    /// The copy that it published, if any, with its bank.
    pub published: Option<Published>,
}

impl Outcome {
    /// That of no step: idle, and nothing was published.
    pub fn new() -> Outcome
        ensures { result ≡ record { note = StepNote.Idle; published = None } }
    {
        Outcome {
            note: StepNote::Idle,
            published: None,
        }
    }

    /// Forgets what was published; the note stays.
    #[inline]
    pub(crate) fn forget(&mut self)
        ensures note { self.new.note ≡ self.old.note }
        ensures published { self.new.published ≡ None }
    {
        if self.published.is_some() {
            self.published = None;
        }
    }
}
