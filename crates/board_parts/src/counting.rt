//! What is counted of a hart.

ghost use Rattle.std.specs.Prelude.{◌≡◌, ◌<◌, if◌then◌else◌};
ghost use Rattle.sse_base.specs.Codes.{is_success};
ghost use Rattle.board_plan.specs.State.{no_counts};
ghost use Rattle.board_plan.specs.Step.{counted};

use board_plan::{Counts, StepNote};
use sbi_sse::SbiCode;
use std::marker::Model;

/// What is counted of a hart: no more calls than steps, and no more failures than calls.
#[derive(Drop)]
pub(crate) struct HartCounts {
    counts: Counts,
}

impl Model for HartCounts {
    ghost use Rattle.std.specs.Prelude.{◌≤◌};
    ghost use Rattle.board_plan.specs.declared.notes.Counts.{Counts};

    ghost Value = { Counts };

    ghost view = { λ c. c.counts };

    ghost invariant = { λ c. (c.counts.calls ≤ c.counts.steps) × (c.counts.failed ≤ c.counts.calls) };
}

/// How many failures a code counts as.
fn failures(code: SbiCode) -> u32
    ensures { result ≡ (if is_success code then 0 else 1) }
{
    match code {
        SbiCode::Success => 0,
        _ => 1,
    }
}

impl HartCounts {
    /// Of a hart that has made no step.
    pub(crate) fn new() -> HartCounts
        ensures { result ≡ no_counts }
    {
        HartCounts {
            counts: Counts {
                steps: 0,
                calls: 0,
                failed: 0,
                last: 0,
            },
        }
    }

    /// The counts.
    pub(crate) fn counts(&self) -> Counts
        ensures { result ≡ self.now }
    {
        self.counts
    }

    /// How many steps the hart has made.
    pub(crate) fn steps(&self) -> u32
        ensures { result ≡ self.now.steps }
    {
        self.counts.steps
    }

    /// Counts a step.
    pub(crate) fn count(&mut self, note: &StepNote)
        requires { self.old.steps < 0x10000 }
        ensures { self.new ≡ counted note.now self.old }
    {
        let steps = self.counts.steps;
        if let StepNote::Call { code, .. } = note {
            self.counts.calls += 1;
            self.counts.failed += failures(*code);
            self.counts.last = code.number();
        }
        self.counts.steps = steps + 1;
    }
}
