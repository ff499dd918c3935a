//! A device that gives the acts of a list.

ghost use Rattle.std.specs.Prelude.{◌≡◌};
ghost use Rattle.ras_device.specs.Acts.{HasReports};

use crate::act::Act;
use crate::device::ErrorDevice;

/// A device that gives the acts of a list, the first of them first. This project's own.
#[derive(Drop)]
pub struct Listed {
    acts: Vec<Act>,
    given: usize,
    ghost reports: { HasReports acts.items },
}

impl Listed {
    /// The device of these acts, of which each error has a priority of at most 3.
    pub fn new(acts: Vec<Act>) -> Listed
        requires { HasReports acts.items }
        ensures { (⟦<Listed as ErrorDevice>⟧.left result).acts ≡ acts.items }
    {
        Listed { acts, given: 0 }
    }
}

impl ErrorDevice for Listed {
    ghost use Rattle.ras_device.specs.Left.{behind};

    ghost left = { λ d. behind d.given d.acts.items d.reports };

    fn next(&mut self) -> Option<Act> {
        let act = *self.acts.get(self.given)?;
        self.given += 1;
        Some(act)
    }
}
