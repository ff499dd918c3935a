//! Workers, and the turn of one on a board that it is lent.

ghost use Rattle.std.specs.Prelude.{◌≡◌, ◌↔◌, ◌+◌, ◌<◌, IfOk};
ghost use Rattle.board_plan.specs.declared.notes.StepNote.TheVariants.{Idle};
ghost use Rattle.board_plan.specs.Step.{hart_step};
ghost use Rattle.board_core.specs.Played.{after_hart, note_if, note_of, state_of};
ghost use Rattle.board_lock.specs.Hand.{IsIdle, board_after, fresh_hand, given, hand_after, hart_hand, rewound, turn_note};
ghost use Rattle.board_lock.specs.Trying.{is_step};
ghost use Rattle.board_lock.specs.Views.{left_or_none};
ghost use Rattle.board_lock.specs.Workers.{hand_of};

use crate::hands::Hands;
use crate::lent::Lent;
use board_core::Board;
use board_parts::Outcome;
use board_plan::{Step, StepNote};
use ras_device::{Act, ErrorDevice};
use ras_io::NoMemory;
use std::alloc::Global;

/// Whose steps a worker makes.
#[derive(Drop)]
pub(crate) enum Actor<D> {
    Hart(u8),
    Reporter(Hands<D>),
}

/// Makes the steps of one hart or reporter of a board. That of a reporter keeps the reporter's device and the acts that
/// it gave, so that they can be handed on again. Contracts see what it has at hand. This project's own.
#[derive(Drop)]
pub struct Worker<D> {
    pub(crate) actor: Actor<D>,
    pub(crate) place: u8,
    pub(crate) turns: u64,
    pub(crate) made: bool,
}

/// One try of a hart on a board: it says whether that made a step, and then the outcome has its note. A hart that the
/// board hasn't makes none.
fn hart_turn<B: Lent>(hart: u8, board: &mut B, outcome: &mut Outcome) -> bool
    ensures board { B.played board.new ≡ after_hart hart (B.played board.old) }
    ensures note { note_if result outcome.new.note
        ≡ note_of (hart_step hart (B.played board.old).plan (state_of (B.played board.old))) }
    ensures made { result ≡ is_step (note_if result outcome.new.note) }
{
    let brief = board.brief();
    let _harts = brief.firmware().harts();
    if hart >= brief.plan().harts {
        return false;
    }
    board.step_hart(hart, outcome)
}

/// The note of a try: that of the step that it made, or `Idle`.
fn note_if(made: bool, note: StepNote) -> StepNote
    ensures { result ≡ note_if made note }
{
    if made { note } else { StepNote::Idle }
}

impl<D: ErrorDevice> Worker<D> {
    /// The worker of a hart.
    pub fn hart(hart: u8) -> Worker<D>
        ensures { hand_of D.left result ≡ hart_hand hart }
    {
        Worker {
            actor: Actor::Hart(hart),
            place: hart,
            turns: 0,
            made: false,
        }
    }

    /// The worker of a reporter on a board of so many harts, with the reporter's device and the number of acts that the
    /// device is asked for at most. It takes all memory that these acts need; `NoMemory` comes only where no room was
    /// found for them.
    pub fn reporter(
        alloc: Global,
        harts: u8,
        reporter: u8,
        device: Option<D>,
        limit: u16,
    ) -> Result<Worker<D>, NoMemory>
        requires { harts + reporter < 256 }
        ensures { IfOk result (λ w. hand_of D.left w ≡ fresh_hand reporter (left_or_none D.left device) limit) }
    {
        Ok(Worker {
            actor: Actor::Reporter(Hands::new(alloc, reporter, device, limit)?),
            place: harts + reporter,
            turns: 0,
            made: false,
        })
    }

    /// The acts that the worker's device gave, in their order.
    pub fn given(&self) -> &[Act]
        ensures { result.now ≡ given (hand_of D.left self.now) }
    {
        match &self.actor {
            Actor::Hart(_) => &[],
            Actor::Reporter(hands) => hands.given(),
        }
    }

    /// From now on none of the given acts counts as handed on.
    pub fn rewind(&mut self)
        ensures { hand_of D.left self.new ≡ rewound (hand_of D.left self.old) }
    {
        if let Actor::Reporter(hands) = &mut self.actor {
            hands.rewind();
        }
    }

    /// One try of the worker's actor on a board, as `turn`: it says whether that made a step, and then the outcome has
    /// its note.
    pub(crate) fn try_step<B: Lent>(&mut self, board: &mut B, outcome: &mut Outcome) -> bool
        ensures board { B.played board.new
            ≡ board_after (hand_of D.left self.old).actor (hand_of D.left self.old) (B.played board.old) }
        ensures hand { hand_of D.left self.new
            ≡ hand_after (hand_of D.left self.old).actor (hand_of D.left self.old) (B.played board.old) }
        ensures note { note_if result outcome.new.note
            ≡ turn_note (hand_of D.left self.old).actor (hand_of D.left self.old) (B.played board.old) }
        ensures made { result ≡ is_step (note_if result outcome.new.note) }
    {
        match &mut self.actor {
            Actor::Hart(hart) => hart_turn(*hart, board, outcome),
            Actor::Reporter(hands) => hands.turn(board, outcome),
        }
    }

    /// One try of the worker's actor on a board. A reporter whose acts the board lists is handed the next of its list.
    /// For any other, while it is wanted, acts that wait since a rewind come first, in their order; after them its
    /// device is asked, unless as many acts were given as the worker's limit, and what it gives is kept and handed on.
    /// `Idle` comes exactly where the actor has no step: the board hasn't the actor, the hart has no step, or the
    /// reporter isn't wanted or has no next act. Then nothing changes.
    pub fn turn(&mut self, board: &mut Board) -> StepNote
        ensures board { board.new ≡ board_after (hand_of D.left self.old).actor (hand_of D.left self.old) board.old }
        ensures hand { hand_of D.left self.new
            ≡ hand_after (hand_of D.left self.old).actor (hand_of D.left self.old) board.old }
        ensures note { result ≡ turn_note (hand_of D.left self.old).actor (hand_of D.left self.old) board.old }
        ensures idle { (result ≡ Idle)
            ↔ IsIdle (hand_of D.left self.old).actor (hand_of D.left self.old) board.old }
        ensures still { result ≡ Idle → (board.new ≡ board.old) × (hand_of D.left self.new ≡ hand_of D.left self.old) }
    {
        let mut outcome = Outcome::new();
        let made = self.try_step(board, &mut outcome);
        note_if(made, outcome.note)
    }
}
