//! The acts that a reporter has made.

ghost use Rattle.std.specs.Prelude.{◌≡◌, IfOk};
ghost use Rattle.board_core.specs.OwnActs.{Suits, HasAdded, HasPlace, IsNew, acts_by};

use crate::kept::Kept;
use board_plan::Reporter;
use ras_device::Act;
use ras_io::NoMemory;
use std::alloc::Global;

/// The acts that a reporter has made: so many of the plan's list, or those that it was handed.
#[derive(Drop)]
pub(crate) enum Made {
    Listed(usize),
    Handed(Kept<Act>),
}

impl Made {
    /// No acts of a reporter; where they will be handed, with room for as many as it may make. `NoMemory` comes where
    /// that room wasn't found.
    pub(crate) fn new(alloc: Global, reporter: &Reporter) -> Result<Made, NoMemory>
        ensures { IfOk result (λ made. IsNew reporter.now made) }
    {
        if reporter.device.is_none() {
            return Ok(Made::Listed(0));
        }
        let acts = Kept::new(alloc, usize::from(reporter.limit))?;
        Ok(Made::Handed(acts))
    }

    /// Adds an act at the end; that of a list is the list's next.
    pub(crate) fn add(&mut self, act: Act)
        requires { HasPlace self.old }
        ensures { HasAdded act self.old self.new }
    {
        match self {
            Made::Listed(count) => *count += 1,
            Made::Handed(acts) => acts.push(act),
        }
    }

    /// The acts of this reporter, the oldest first.
    pub(crate) fn acts<'a>(&'a self, reporter: &'a Reporter) -> &'a [Act]
        requires { Suits reporter.now self.now }
        ensures { result.now ≡ acts_by reporter.now self.now }
    {
        match self {
            Made::Listed(count) => &reporter.acts.as_slice()[..*count],
            Made::Handed(acts) => acts.items.as_slice(),
        }
    }
}
