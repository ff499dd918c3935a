//! The board that keeps no notes, and how contracts see it.

use crate::housed::Housed;
use crate::log::Log;
use crate::made::Made;
use board_fates::Tally;
use board_plan::Plan;
use std::marker::Model;

/// A board that keeps no notes: which steps were made, but not what they did. Contracts see its plan, the acts that its
/// reporters have made and the steps that were made; its parts are always those of the run of these steps.
#[derive(Drop)]
pub struct Brief {
    pub(crate) plan: Plan,
    pub(crate) parts: Housed,
    pub(crate) acts: Vec<Made>,
    pub(crate) log: Log,
    pub(crate) tally: Tally,
}

impl Model for Brief {
    ghost use Rattle.board_core.specs.Played.{Played};

    ghost Value = { Played };

    ghost use Rattle.board_core.specs.Inside.{IsBrief, played};

    ghost view = { played };

    ghost invariant = { IsBrief };
}
