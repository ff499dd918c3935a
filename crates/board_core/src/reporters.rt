//! What a board that keeps no notes says of its reporters.

ghost use Rattle.std.specs.Prelude.{◌≡◌, ◌<◌, length};
ghost use Rattle.board_plan.specs.Step.{wants};
ghost use Rattle.board_core.specs.Played.{IsReport, acts_of, is_list, listed, state_of};

use crate::brief::Brief;
use ras_device::Act;

impl Brief {
    /// Whether a reporter is wanted: the board has it, it is plugged and has made fewer acts than its limit.
    pub fn wants(&self, reporter: u8) -> bool
        ensures { result ≡ wants self.now.plan reporter (state_of self.now) }
    {
        self.parts.parts().wants(reporter)
    }

    /// Whether a reporter's acts are listed in the plan.
    pub fn is_list(&self, reporter: u8) -> bool
        ensures { result ≡ is_list self.now.plan reporter }
    {
        match self.plan.reporters.as_slice().get(reporter as usize) {
            Some(decl) => decl.device.is_none(),
            None => false,
        }
    }

    /// The next act of a reporter whose acts are listed. None exactly where its list is used up, or the board has no
    /// list for it.
    pub fn listed(&self, reporter: u8) -> Option<Act>
        ensures act { result ≡ listed self.now reporter }
        ensures report { IsReport result }
    {
        let Some(decl) = self.plan.reporters.as_slice().get(reporter as usize) else {
            return None;
        };
        if decl.device.is_some() {
            return None;
        }
        let made = self.parts.parts().made(reporter);
        decl.acts.as_slice().get(made as usize).copied()
    }

    /// The acts that a reporter has made, the oldest first.
    pub fn acts(&self, reporter: u8) -> &[Act]
        requires { reporter < length self.now.plan.reporters }
        ensures { result.now ≡ acts_of self.now reporter }
    {
        let decl = &self.plan.reporters.as_slice()[reporter as usize];
        self.acts[reporter as usize].acts(decl)
    }
}
