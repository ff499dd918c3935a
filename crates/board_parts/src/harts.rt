//! The steps of harts.

ghost use Rattle.std.specs.Prelude.{◌≡◌, ◌<◌, ℕ, Some, None, slice_get};
ghost use Rattle.sse_base.specs.Contexts.{Stack};
ghost use Rattle.board_plan.specs.declared.plan.Plan.{Plan};
ghost use Rattle.board_plan.specs.State.{BoardState};
ghost use Rattle.board_plan.specs.Step.{allowed, board_reach, hart_step, on_chosen, own_step};
ghost use Rattle.board_parts.specs.Shows.{Shows};
ghost use Rattle.board_parts.specs.Came.{Acts, Steps, came, outcome_of, was_plugged, without_plug};

use crate::outcome::Outcome;
use crate::parts::Parts;
use board_ops::{is_illegal, pass, step};
use board_plan::{Op, StepNote};

/// Notes that an event is delivered.
#[inline(never)]
fn delivered(id: u32, note: &mut StepNote)
    ensures { note.new ≡ StepNote.Deliver id }
{
    *note = StepNote::Deliver { id };
}

impl Parts {
    /// Acknowledges a bank's block, where the hart's mode allows it.
    fn on_ack(&mut self, hart: u8, bank: u8, note: &mut StepNote)
        requires { hart < self.old.firmware.events.harts }
        ensures acts { (plan : Plan) (s : BoardState) (stack : Stack) → Shows plan s self.old
            → slice_get s.machine.stacks hart ≡ Some stack
            → Acts hart plan s (Some (allowed hart plan s.machine.stacks (board_reach stack s)
            (Op.Ack bank))) self.new (Some (outcome_of note.new None)) }
        ensures harts { self.new.firmware.events.harts ≡ self.old.firmware.events.harts }
        ensures counts { self.new.counts.items ≡ self.old.counts.items }
    {
        let illegal = is_illegal(&self.firmware, hart, &Op::Ack { bank });
        pass(&mut self.firmware, hart);
        if illegal {
            *note = StepNote::Illegal;
            return;
        }
        if self.acknowledge(bank, note) {
            return;
        }
        *note = StepNote::Ack { bank, was: None };
    }

    /// Unplugs a reporter, and says whether it was plugged; false where the board hasn't the reporter.
    fn unplug(&mut self, reporter: u8) -> bool
        ensures shows { (plan : Plan) (s : BoardState) → Shows plan s self.old
            → Shows plan (without_plug reporter s) self.new }
        ensures was { (plan : Plan) (s : BoardState) → Shows plan s self.old → was_plugged reporter s ≡ result }
        ensures harts { self.new.firmware.events.harts ≡ self.old.firmware.events.harts }
        ensures counts { self.new.counts.items ≡ self.old.counts.items }
    {
        let at = reporter as usize;
        if at >= self.reporters.len() {
            return false;
        }
        self.reporters[at].unplug()
    }

    /// Unplugs a reporter, where the hart's mode allows it.
    fn on_unplug(&mut self, hart: u8, reporter: u8, note: &mut StepNote)
        requires { hart < self.old.firmware.events.harts }
        ensures acts { (plan : Plan) (s : BoardState) (stack : Stack) → Shows plan s self.old
            → slice_get s.machine.stacks hart ≡ Some stack
            → Acts hart plan s (Some (allowed hart plan s.machine.stacks (board_reach stack s)
            (Op.Unplug reporter))) self.new (Some (outcome_of note.new None)) }
        ensures harts { self.new.firmware.events.harts ≡ self.old.firmware.events.harts }
        ensures counts { self.new.counts.items ≡ self.old.counts.items }
    {
        let illegal = is_illegal(&self.firmware, hart, &Op::Unplug { reporter });
        pass(&mut self.firmware, hart);
        if illegal {
            *note = StepNote::Illegal;
            return;
        }
        let was = self.unplug(reporter);
        *note = StepNote::Unplug { reporter, was };
    }

    /// Makes the step of the op that stands at a hart's pc. False where none stands there; then nothing changes.
    fn on_op(&mut self, hart: u8, note: &mut StepNote) -> bool
        requires { hart < self.old.firmware.events.harts }
        ensures acts { (plan : Plan) (s : BoardState) (stack : Stack) → Shows plan s self.old
            → slice_get s.machine.stacks hart ≡ Some stack
            → Acts hart plan s (on_chosen hart plan s.machine.stacks (board_reach stack s) None) self.new
            (came result (outcome_of note.new None)) }
        ensures harts { self.new.firmware.events.harts ≡ self.old.firmware.events.harts }
        ensures counts { self.new.counts.items ≡ self.old.counts.items }
    {
        let pc = self.firmware.regs(hart).pc;
        let Some(op) = self.index.get(pc) else {
            return false;
        };
        match *op {
            Op::Ack { bank } => {
                self.on_ack(hart, bank, note);
                true
            }
            Op::Unplug { reporter } => {
                self.on_unplug(hart, reporter, note);
                true
            }
            _ => {
                step(&mut self.firmware, hart, op, note);
                true
            }
        }
    }

    /// Makes a hart's step, but for what is counted of it. False where the hart has none.
    fn act(&mut self, hart: u8, outcome: &mut Outcome) -> bool
        requires { hart < self.old.firmware.events.harts }
        ensures acts { (plan : Plan) (s : BoardState) (stack : Stack) → Shows plan s self.old
            → slice_get s.machine.stacks hart ≡ Some stack
            → Acts hart plan s (own_step hart plan s.machine.stacks (board_reach stack s)) self.new
            (came result outcome.new) }
        ensures harts { self.new.firmware.events.harts ≡ self.old.firmware.events.harts }
        ensures counts { self.new.counts.items ≡ self.old.counts.items }
    {
        if let Some(bank) = self.due(hart) {
            return self.drain(bank, outcome);
        }
        outcome.forget();
        if let Some(at) = self.firmware.deliver(hart) {
            delivered(at.id().0, &mut outcome.note);
            return true;
        }
        self.on_op(hart, &mut outcome.note)
    }

    /// Makes the step of a hart, which the board has, and says what came of it. False exactly where the hart has
    /// none: it has made its budget, no drain is due, no event is to be delivered and no op stands at its pc. Then
    /// nothing changes but the outcome, of which nothing is known.
    pub fn hart_step(&mut self, hart: u8, outcome: &mut Outcome) -> bool
        requires { hart < self.old.firmware.events.harts }
        ensures steps { (plan : Plan) (s : BoardState) → Shows plan s self.old
            → Steps plan s (hart_step hart plan s) self.new (came result outcome.new) }
        ensures harts { self.new.firmware.events.harts ≡ self.old.firmware.events.harts }
    {
        let _harts = self.firmware.harts();
        let at = hart as usize;
        if self.counts[at].steps() >= u32::from(self.budgets[at]) {
            return false;
        }
        if !self.act(hart, outcome) {
            return false;
        }
        self.counts[at].count(&outcome.note);
        true
    }
}
