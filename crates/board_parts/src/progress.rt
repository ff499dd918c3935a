//! How far a reporter is.

ghost use Rattle.std.specs.Prelude.{◌≡◌, ◌<◌, ◌&&◌, nat_lt, true, false};
ghost use Rattle.board_plan.specs.Step.{one_more};

use std::marker::Model;

/// How many acts a reporter has made, and whether it is plugged.
#[derive(Drop)]
pub(crate) struct Progress {
    made: u16,
    plugged: bool,
}

impl Model for Progress {
    ghost use Rattle.board_plan.specs.State.{ReporterState};

    ghost Value = { ReporterState };

    ghost view = { λ p. record { made = p.made; plugged = p.plugged } };
}

impl Progress {
    /// A plugged reporter that has made no act.
    pub(crate) fn new() -> Progress
        ensures { result ≡ record { made = 0; plugged = true } }
    {
        Progress {
            made: 0,
            plugged: true,
        }
    }

    /// How many acts it has made.
    pub(crate) fn made(&self) -> u16
        ensures { result ≡ self.now.made }
    {
        self.made
    }

    /// Whether it is plugged and has made fewer acts than its limit.
    pub(crate) fn is_wanted(&self, limit: u16) -> bool
        ensures { result ≡ (self.now.plugged && nat_lt self.now.made limit) }
    {
        self.plugged && self.made < limit
    }

    /// Counts an act.
    pub(crate) fn count(&mut self)
        requires { self.old.made < 0xffff }
        ensures { self.new ≡ one_more self.old }
    {
        self.made += 1;
    }

    /// Unplugs it, and says whether it was plugged until then.
    pub(crate) fn unplug(&mut self) -> bool
        ensures was { result ≡ self.old.plugged }
        ensures next { self.new ≡ record self.old { plugged = false } }
    {
        let was = self.plugged;
        self.plugged = false;
        was
    }
}
