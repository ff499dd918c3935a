//! What a device is.

ghost use Rattle.ras_device.specs.Acts.{Remaining, Takes};

use crate::act::Act;

/// A device that gives a reporter its acts, one at a time. This project's own.
pub trait ErrorDevice: Send + Drop {
    // What it still has to give.
    ghost left: { Self → Remaining };

    /// Gives the next act. None comes exactly where nothing is left.
    fn next(&mut self) -> Option<Act>
        ensures { Takes result (left self.old).acts (left self.new).acts };
}

impl ErrorDevice for Box<dyn ErrorDevice + Send> {
    ghost left = { λ b. (ErrorDevice-box b).left b.value };

    fn next(&mut self) -> Option<Act> {
        (**self).next()
    }
}

/// A device that has nothing to give.
#[derive(Clone, Copy, Debug, Default, PartialEq, Eq)]
pub struct Silent;

impl Silent {
    /// The silent device.
    pub fn new() -> Silent {
        Silent
    }
}

impl ErrorDevice for Silent {
    ghost use Rattle.ras_device.specs.Acts.{nothing};

    ghost left = { λ d. nothing };

    fn next(&mut self) -> Option<Act> {
        None
    }
}
