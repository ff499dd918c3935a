//! What a board that keeps no notes has kept, and what stands on it.

ghost use Rattle.std.specs.Prelude.{◌≡◌, ◌<◌, Some, length, option_map, slice_get};
ghost use Rattle.reri_fields.specs.Banks.{BankStands};
ghost use Rattle.reri_fields.specs.Drain.{BankState};
ghost use Rattle.board_plan.specs.declared.plan.BankDecl.{BankDecl};
ghost use Rattle.board_plan.specs.Plans.{most_steps};
ghost use Rattle.board_plan.specs.State.{bank_plan, counts_of};
ghost use Rattle.board_plan.specs.Fates.{fates_of};
ghost use Rattle.board_parts.specs.Shows.{Shows};
ghost use Rattle.board_core.specs.Played.{IsPlayed, IsSafe, own_run, state_of};

use crate::brief::Brief;
use board_parts::Parts;
use board_plan::{Counts, Fates, Plan, Published, Step};
use ghes_block::Slot;
use reri_bank::Bank;
use reri_fields::Phase;
use sbi_sse::Firmware;

impl Brief {
    // ---- What was played ----

    /// The plan.
    pub fn plan(&self) -> &Plan
        ensures { result.now ≡ self.now.plan }
    {
        &self.plan
    }

    /// The steps that were made, the oldest first.
    pub fn steps(&self) -> &[Step]
        ensures steps { result.now ≡ self.now.steps }
        ensures played { IsPlayed self.now }
        ensures safe { IsSafe self.now }
    {
        self.log.steps.items.as_slice()
    }

    /// The copies that were published, the oldest first.
    pub fn published(&self) -> &[Published]
        ensures { result.now ≡ (own_run self.now).published }
    {
        self.log.published.items.as_slice()
    }

    /// How many steps the run can have: as many as the plan's budgets and limits allow.
    pub fn places(&self) -> usize
        ensures { result ≡ most_steps self.now.plan }
    {
        self.log.steps.room
    }

    // ---- The state ----

    /// The parts, which are those of the state.
    pub fn parts(&self) -> &Parts
        ensures { Shows self.now.plan (state_of self.now) result.now }
    {
        self.parts.parts()
    }

    /// The firmware.
    pub fn firmware(&self) -> &Firmware
        ensures machine { result.now ≡ (state_of self.now).machine }
        ensures harts { result.now.events.harts ≡ self.now.plan.harts }
    {
        self.parts.parts().firmware()
    }

    /// What is counted of a hart.
    pub fn counts(&self, hart: u8) -> Counts
        requires { hart < self.now.plan.harts }
        ensures { result ≡ counts_of hart (state_of self.now) }
    {
        self.parts.parts().counts(hart)
    }

    /// How many of the errors that were made have each fate.
    pub fn fates(&self) -> Fates
        ensures { result ≡ fates_of self.now.plan (own_run self.now).notes }
    {
        self.tally.fates()
    }

    /// The records of a bank: those that began as the plan says, and to which happened what the state says.
    pub fn bank(&self, bank: u8) -> &Bank
        requires { bank < length self.now.plan.banks }
        ensures { (d : BankDecl) (x : BankState) → slice_get self.now.plan.banks bank ≡ Some d
            → slice_get (state_of self.now).banks bank ≡ Some x
            → BankStands (bank_plan bank d self.now.plan.recs).origins x.history result.now }
    {
        self.parts.parts().bank(bank).bank()
    }

    /// The slot of a bank.
    pub fn slot(&self, bank: u8) -> &Slot
        requires { bank < length self.now.plan.banks }
        ensures { (x : BankState) → slice_get (state_of self.now).banks bank ≡ Some x → result.now ≡ x.slot }
    {
        self.parts.parts().bank(bank).slot()
    }

    /// The phase that the next step of a bank's drain takes, and the record that it has taken, 0 where it has none.
    /// None comes exactly where no drain of the bank is under way.
    pub fn drain(&self, bank: u8) -> Option<(Phase, u8)>
        requires { bank < length self.now.plan.banks }
        ensures { (x : BankState) → slice_get (state_of self.now).banks bank ≡ Some x
            → result ≡ option_map (λ d. (d.phase, d.rec)) x.drain }
    {
        self.parts.parts().bank(bank).drain().phase()
    }
}
