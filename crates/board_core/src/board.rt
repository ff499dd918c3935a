//! The board, and how contracts see it.

use crate::brief::Brief;
use crate::kept::Kept;
use board_plan::StepNote;
use std::marker::Model;

/// A board that keeps its own run. Contracts see its plan, the acts that its reporters have made and the steps that
/// were made; its notes are always those of the run of these steps.
#[derive(Drop)]
pub struct Board {
    pub(crate) brief: Brief,
    pub(crate) notes: Kept<StepNote>,
}

impl Model for Board {
    ghost use Rattle.board_core.specs.Played.{Played};

    ghost Value = { Played };

    ghost use Rattle.board_core.specs.Noting.{IsBoard};

    ghost view = { λ b. b.brief };

    ghost invariant = { IsBoard };
}
