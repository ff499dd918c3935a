//! Tries of a list of steps on a board that is lent, and then rounds.

ghost use Rattle.std.specs.Prelude.{◌≡◌, ◌≤◌, ◌<◌, ℕ, [], ◌∷◌, IfSome, List, length, map, position};
ghost use Rattle.std.specs.List.{range_with_len};
ghost use Rattle.ras_device.specs.declared.act.Act.{Act};
ghost use Rattle.board_plan.specs.declared.notes.Step.TheVariants.{Hart, Reporter};
ghost use Rattle.board_plan.specs.Plans.{most_steps};
ghost use Rattle.board_plan.specs.Run.{round};
ghost use Rattle.board_lock.specs.Replaying.{Agrees, Replays, is_same};
ghost use Rattle.board_lock.specs.Trying.{Goes, Went, WentOver, is_step};
ghost use Rattle.board_lock.specs.Workers.{hand_of};

use crate::lent::Lent;
use crate::worker::{Actor, Worker};
use board_core::Board;
use board_parts::Outcome;
use board_plan::{Step, StepNote};
use ras_device::ErrorDevice;

/// Whether a note is that of a step.
pub(crate) fn is_step(note: &StepNote) -> bool
    ensures { result ≡ is_step note.now }
{
    !matches!(note, StepNote::Idle)
}

/// Whether a worker makes the steps of this actor.
fn is_by<D: ErrorDevice>(worker: &Worker<D>, actor: Step) -> bool
    ensures { result ≡ is_same (hand_of D.left worker.now).actor actor }
{
    match (&worker.actor, actor) {
        (Actor::Hart(one), Step::Hart(other)) => *one == other,
        (Actor::Reporter(hands), Step::Reporter(other)) => hands.reporter == other,
        _ => false,
    }
}

/// The place of the first worker that makes the steps of this actor.
#[tactic(auto, using(crate::proofs::Trying::place_low))]
fn place<D: ErrorDevice>(workers: &[Worker<D>], actor: Step) -> Option<usize>
    ensures first { result ≡ position (λ w. is_same (hand_of D.left w).actor actor) workers.now }
    ensures low { IfSome result (λ k. k < length workers.now) }
{
    workers.iter().position(|worker| is_by(worker, actor))
}

/// Has the worker of an actor try a step, and says whether it made one. An actor without a worker is passed over.
fn try_as<D: ErrorDevice, B: Lent>(
    workers: &mut [Worker<D>],
    actor: Step,
    board: &mut B,
    outcome: &mut Outcome,
) -> bool
    ensures { Went (B.played board.old) (map (hand_of D.left) workers.old) (actor ∷ []) result (B.played board.new)
        (map (hand_of D.left) workers.new) }
{
    let brief = board.brief();
    let _steps = brief.steps();
    let _harts = brief.firmware().harts();
    let Some(at) = place(workers, actor) else {
        return false;
    };
    let worker = &mut workers[at];
    worker.try_step(board, outcome)
}

/// Tries each hart of the board once, and says whether one of them made a step.
fn try_harts<D: ErrorDevice, B: Lent>(
    workers: &mut [Worker<D>],
    board: &mut B,
    outcome: &mut Outcome,
) -> bool
    ensures { Went (B.played board.old) (map (hand_of D.left) workers.old)
        (map Hart (range_with_len 0 (B.played board.old).plan.harts)) result (B.played board.new)
        (map (hand_of D.left) workers.new) }
{
    let mut made = false;
    for hart in 0..board.brief().plan().harts {
        let moved = try_as(workers, Step::Hart(hart), board, outcome);
        made = made || moved;
    }
    made
}

/// Tries each reporter of the board once, and says whether one of them made a step.
fn try_reporters<D: ErrorDevice, B: Lent>(
    workers: &mut [Worker<D>],
    board: &mut B,
    outcome: &mut Outcome,
) -> bool
    ensures { Went (B.played board.old) (map (hand_of D.left) workers.old)
        (map Reporter (range_with_len 0 (length (B.played board.old).plan.reporters))) result (B.played board.new)
        (map (hand_of D.left) workers.new) }
{
    let brief = board.brief();
    let _steps = brief.steps();
    let mut made = false;
    for reporter in 0..brief.plan().reporters.as_slice().len() as u8 {
        let moved = try_as(workers, Step::Reporter(reporter), board, outcome);
        made = made || moved;
    }
    made
}

/// A round: one try of each hart and then one of each reporter. It says whether one of them made a step.
fn try_round<D: ErrorDevice, B: Lent>(
    workers: &mut [Worker<D>],
    board: &mut B,
    outcome: &mut Outcome,
) -> bool
    ensures went { Went (B.played board.old) (map (hand_of D.left) workers.old) (round (B.played board.old).plan) result
        (B.played board.new) (map (hand_of D.left) workers.new) }
    ensures few { length (B.played board.new).steps ≤ most_steps (B.played board.new).plan }
{
    let harts = try_harts(workers, board, outcome);
    let reporters = try_reporters(workers, board, outcome);
    let _steps = board.brief().steps();
    harts || reporters
}

/// Tries these steps, one after another.
fn try_steps<D: ErrorDevice, B: Lent>(
    steps: &[Step],
    workers: &mut [Worker<D>],
    board: &mut B,
    outcome: &mut Outcome,
)
    ensures { Goes (B.played board.old) (map (hand_of D.left) workers.old) steps.now (B.played board.new)
        (map (hand_of D.left) workers.new) }
{
    for step in steps {
        try_as(workers, *step, board, outcome);
    }
}

/// Tries rounds up to the first in which nobody made a step.
fn try_rounds<D: ErrorDevice, B: Lent>(
    workers: &mut [Worker<D>],
    board: &mut B,
    outcome: &mut Outcome,
)
    ensures { WentOver (B.played board.old) (map (hand_of D.left) workers.old) (B.played board.new)
        (map (hand_of D.left) workers.new) }
{
    while try_round(workers, board, outcome) {}
}

/// As `replay`, on any board that workers can be lent.
pub(crate) fn replay_on<D: ErrorDevice, B: Lent>(
    steps: &[Step],
    workers: &mut [Worker<D>],
    board: &mut B,
)
    ensures tries { (acts : ℕ → List Act) → Agrees acts (B.played board.old) (map (hand_of D.left) workers.old)
        → Replays acts (B.played board.old) steps.now (B.played board.new) }
    ensures agrees { (acts : ℕ → List Act) → Agrees acts (B.played board.old) (map (hand_of D.left) workers.old)
        → Agrees acts (B.played board.new) (map (hand_of D.left) workers.new) }
{
    let mut outcome = Outcome::new();
    try_steps(steps, workers, board, &mut outcome);
    try_rounds(workers, board, &mut outcome);
    let _harts = board.brief().firmware().harts();
}

/// Tries the steps of a list on a board, one after another, each by the worker of its actor, and then rounds of one try
/// of each hart and reporter, up to the first in which nobody made a step. A step without a worker is passed over. No
/// memory is taken. What comes of it is known where each actor of the board has a worker, of the plan's limit, and the
/// acts that the worker of a reporter without a list has handed on are those that the reporter has made on the board.
pub fn replay<D: ErrorDevice>(steps: &[Step], workers: &mut [Worker<D>], board: &mut Board)
    ensures tries { (acts : ℕ → List Act) → Agrees acts board.old (map (hand_of D.left) workers.old)
        → Replays acts board.old steps.now board.new }
    ensures agrees { (acts : ℕ → List Act) → Agrees acts board.old (map (hand_of D.left) workers.old)
        → Agrees acts board.new (map (hand_of D.left) workers.new) }
{
    replay_on(steps, workers, board)
}
