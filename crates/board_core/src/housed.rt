//! The parts of a board in a place of their own.

ghost use Rattle.std.specs.Prelude.{◌≡◌, ◌<◌, IfOk};
ghost use Rattle.board_plan.specs.declared.plan.Plan.{Plan};
ghost use Rattle.board_plan.specs.State.{BoardState};
ghost use Rattle.board_plan.specs.Step.{hart_step, reporter_step};
ghost use Rattle.board_parts.specs.Shows.{AreEarly, Shows};
ghost use Rattle.board_parts.specs.Came.{IsReport, Steps, came};

use board_parts::{Outcome, Parts};
use ras_device::Act;
use ras_io::NoMemory;
use std::alloc::Global;
use std::marker::Model;

/// The parts of a board on the heap, so that a board is small and moves at little cost. Contracts see the parts.
#[derive(Drop)]
pub(crate) struct Housed {
    parts: Box<Parts>,
}

impl Model for Housed {
    ghost use Rattle.board_parts.specs.declared.parts.Parts.{Parts};
    ghost use Rattle.board_parts.specs.contracts.parts.Parts as row;
    ghost use Rattle.std.specs.Coded.{codes};

    ghost Value = { Parts };

    ghost coded = { Prim.hlevel (codes, row.the_row.coded) };

    ghost view = { λ h. h.parts.value };
}

impl Housed {
    /// These parts. `NoMemory` comes where no room was found for them.
    pub(crate) fn new(alloc: Global, parts: Parts) -> Result<Housed, NoMemory>
        ensures { IfOk result (λ h. h ≡ parts) }
    {
        match Box::new(alloc, parts) {
            Ok(parts) => Ok(Housed { parts }),
            Err(_) => Err(NoMemory),
        }
    }

    /// The parts.
    #[inline]
    pub(crate) fn parts(&self) -> &Parts
        ensures { result.now ≡ self.now }
    {
        &self.parts
    }

    /// The step of a hart, as the parts make it.
    #[inline]
    pub(crate) fn hart_step(&mut self, hart: u8, outcome: &mut Outcome) -> bool
        requires { hart < self.old.firmware.events.harts }
        ensures steps { (plan : Plan) (s : BoardState) → Shows plan s self.old
            → Steps plan s (hart_step hart plan s) self.new (came result outcome.new) }
        ensures harts { self.new.firmware.events.harts ≡ self.old.firmware.events.harts }
    {
        self.parts.hart_step(hart, outcome)
    }

    /// The step of a reporter, as the parts make it.
    #[inline]
    pub(crate) fn reporter_step(
        &mut self,
        reporter: u8,
        act: Option<Act>,
        outcome: &mut Outcome,
    ) -> bool
        requires { IsReport act }
        ensures steps { (plan : Plan) (s : BoardState) → Shows plan s self.old → AreEarly s
            → Steps plan s (reporter_step reporter plan act s) self.new (came result outcome.new) }
        ensures harts { self.new.firmware.events.harts ≡ self.old.firmware.events.harts }
    {
        self.parts.reporter_step(reporter, act, outcome)
    }
}
