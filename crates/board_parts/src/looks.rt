//! What can be seen of the parts of a board.

ghost use Rattle.std.specs.Prelude.{◌≡◌, ◌<◌, length, slice_get, slice_index_or, Some, true, option_map};
ghost use Rattle.board_plan.specs.declared.plan.Plan.{Plan};
ghost use Rattle.board_plan.specs.State.{BoardState, no_counts};
ghost use Rattle.board_plan.specs.Step.{wants};
ghost use Rattle.board_parts.specs.Shows.{Shows};

use crate::parts::Parts;
use board_bank::BoardBank;
use board_plan::Counts;
use sbi_sse::Firmware;

impl Parts {
    /// The firmware.
    pub fn firmware(&self) -> &Firmware
        ensures { result.now ≡ self.now.firmware }
    {
        &self.firmware
    }

    /// A bank.
    pub fn bank(&self, bank: u8) -> &BoardBank
        requires { bank < length self.now.banks.items }
        ensures { slice_get self.now.banks.items bank ≡ Some result.now }
    {
        &self.banks[bank as usize]
    }

    /// What is counted of a hart.
    pub fn counts(&self, hart: u8) -> Counts
        requires { hart < self.now.firmware.events.harts }
        ensures { result ≡ slice_index_or self.now.counts.items hart no_counts }
    {
        self.counts[hart as usize].counts()
    }

    /// How many acts a reporter has made.
    pub fn made(&self, reporter: u8) -> u16
        requires { reporter < length self.now.reporters.items }
        ensures { option_map (λ x. x.made) (slice_get self.now.reporters.items reporter) ≡ Some result }
    {
        self.reporters[reporter as usize].made()
    }

    /// Whether a reporter is wanted: the board has it, it is plugged and has made fewer acts than its limit.
    pub fn wants(&self, reporter: u8) -> bool
        ensures { (plan : Plan) (s : BoardState) → Shows plan s self.now → wants plan reporter s ≡ result }
    {
        let at = reporter as usize;
        if at >= self.reporters.len() {
            return false;
        }
        self.reporters[at].is_wanted(self.limits[at])
    }
}
