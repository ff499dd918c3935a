//! The parts of a board.

ghost use Rattle.std.specs.Prelude.{◌≡◌, ◌≤◌, All, false, length};
ghost use Rattle.board_parts.specs.Homes.{Spans};
ghost use Rattle.board_parts.specs.Quiet.{IsQuiet};

use crate::counting::HartCounts;
use crate::homes::{HARTS, Span};
use crate::progress::Progress;
use board_bank::BoardBank;
use board_ops::OpIndex;
use board_plan::BankDecl;
use sbi_sse::Firmware;

/// The parts of a board: all that its steps look at and change. There are at most four banks,
/// `homes` has for each hart a span that holds the banks whose home it is, and until a bank has `heard` of an error none
/// asks or drains.
#[derive(Drop)]
pub struct Parts {
    pub(crate) firmware: Firmware,
    pub(crate) index: OpIndex,
    pub(crate) decls: Vec<BankDecl>,
    pub(crate) homes: [Span; HARTS],
    pub(crate) banks: Vec<BoardBank>,
    pub(crate) heard: bool,
    pub(crate) budgets: Vec<u16>,
    pub(crate) counts: Vec<HartCounts>,
    pub(crate) limits: Vec<u16>,
    pub(crate) reporters: Vec<Progress>,
    ghost declared: { length decls.items ≡ length banks.items },
    ghost homed: { Spans (length decls.items) decls.items homes },
    ghost quiet: { heard ≡ false → All IsQuiet banks.items },
    ghost few: { length banks.items ≤ 4 },
    ghost budgeted: { length budgets.items ≡ firmware.events.harts },
    ghost counted: { length counts.items ≡ firmware.events.harts },
    ghost limited: { length limits.items ≡ length reporters.items },
}
