//! A board behind a lock, on which many workers make steps.

ghost use Rattle.std.specs.Prelude.{◌≡◌, ◌<◌, ℕ, length, map, slice_index_or};
ghost use Rattle.board_core.specs.Played.{IsPlayed, IsSafe};
ghost use Rattle.board_lock.specs.Hand.{EachStays, Stays};
ghost use Rattle.board_lock.specs.Workers.{hand_of};

use crate::gate::Gate;
use crate::lent::Lent;
use crate::worker::Worker;
use board_core::Board;
use board_parts::Outcome;
use ras_device::ErrorDevice;
use std::hint::spin_loop;
use std::sync::{Mutex, MutexGuard, Wait};
use std::thread::{self, Threads};

/// How many tries one call of `work` makes at most: no actor makes more than 10,000 steps, and one idle try ends it.
const MOST_TRIES: u32 = 10_001;

/// How many rounds `rounds` makes at most: no run has more than 160,000 steps, and one idle round ends it.
const MOST_ROUNDS: u32 = 160_001;

/// How often a worker looks for the lock before it sleeps until the lock is given up.
const LOOKS: u32 = 200;

/// How many pauses it makes behind the first look.
const FEWEST_PAUSES: u32 = 100;

/// How many pauses it makes behind a look at most.
const MOST_PAUSES: u32 = 6_400;

/// A board behind a lock. Whenever the lock is free, the board is the run of the steps that it keeps, since each board
/// is that: contracts see it as its plan, acts and steps, and all else that it answers is that of their run.
#[derive(Drop)]
pub struct Shared<B = Board> {
    board: Mutex<B>,
}

impl Shared {
    /// Puts a board behind a lock.
    pub fn new(board: Board) -> Shared {
        Shared::of(board)
    }

    /// Takes the board out of the lock. Which steps it has is known by its type alone: it is the run of those that it
    /// keeps, and that run is safe.
    pub fn into_board(self) -> Board
        ensures played { IsPlayed result }
        ensures safe { IsSafe result }
    {
        let board = self.into_inner();
        let _steps = board.steps();
        board
    }
}

impl<B: Lent> Shared<B> {
    /// Puts a board of any kind behind a lock.
    pub(crate) fn of(board: B) -> Shared<B> {
        Shared {
            board: Mutex::new(board),
        }
    }

    /// Takes the board out of the lock.
    pub(crate) fn into_inner(self) -> B {
        self.board.into_inner()
    }

    /// Takes the lock. A try is far shorter than the sleep and the wake of a thread, and a board that goes from one
    /// processor to another slows each try on it. So whoever finds the lock taken leaves its owner alone: it stays away
    /// for a while, twice as long after each look, and sleeps on the lock only where many looks were in vain.
    fn take<R: Wait>(&self, rt: &R) -> MutexGuard<'_, B> {
        let mut pauses = FEWEST_PAUSES;
        for _ in 0..LOOKS {
            if let Some(guard) = self.board.try_lock() {
                return guard;
            }
            stay_away(pauses);
            pauses = pauses.saturating_mul(2).min(MOST_PAUSES);
        }
        self.board.lock(rt)
    }
}

/// Touches nothing for so many pauses, and lets other threads run.
fn stay_away(pauses: u32) {
    for _ in 0..pauses {
        spin_loop();
    }
    thread::yield_now();
}

/// Holds the lock for one turn of a worker, and says whether that made a step. All that is done to the board is that
/// turn.
#[tactic(auto, using(crate::proofs::Agreeing::hand_stays))]
fn hold<R: Wait, D: ErrorDevice, B: Lent>(
    rt: &R,
    worker: &mut Worker<D>,
    shared: &Shared<B>,
    outcome: &mut Outcome,
) -> bool
    ensures { Stays (hand_of D.left worker.old) (hand_of D.left worker.new) }
{
    let mut guard = shared.take(rt);
    let board = &mut *guard;
    worker.try_step(board, outcome)
}

/// Lets one worker make steps on the board behind the lock, until it has none. For each try it tells the gate, waits
/// for the lock, which is all that it waits for, and gives the lock up behind the try. Tries are 10,001 at most.
#[tactic(auto, using(crate::proofs::Staying::stays_then))]
pub fn work<R: Wait, G: Gate, D: ErrorDevice, B: Lent>(
    rt: &R,
    worker: &mut Worker<D>,
    shared: &Shared<B>,
    gate: &G,
)
    ensures { Stays (hand_of D.left worker.old) (hand_of D.left worker.new) }
{
    let mut outcome = Outcome::new();
    worker.made = false;
    for _ in 0..MOST_TRIES {
        gate.arrive(worker.place, worker.turns);
        worker.turns = worker.turns.saturating_add(1);
        if !hold(rt, worker, shared, &mut outcome) {
            return;
        }
        worker.made = true;
    }
}

/// Starts a thread for each worker, in which it works, and waits for all of these threads.
fn work_all<R: Threads + Wait + Sync, G: Gate + Sync, D: ErrorDevice, B: Lent>(
    rt: &R,
    shared: &Shared<B>,
    workers: &mut [Worker<D>],
    gate: &G,
)
    ensures each { (k : ℕ) (d : _) → k < length workers.old
        → Stays (hand_of D.left (slice_index_or workers.old k d)) (hand_of D.left (slice_index_or workers.new k d)) }
    ensures many { length workers.new ≡ length workers.old }
{
    let count = workers.len();
    if count > 0 {
        thread::for_each_mut(
            rt,
            workers,
            count,
            &|_, worker: &mut Worker<D>|
                ensures { Stays (hand_of D.left worker.old) (hand_of D.left worker.new) }
            { work(rt, worker, shared, gate) },
        );
    }
}

/// A round of all workers: it says whether any of them made a step.
#[tactic(auto, using(crate::proofs::Staying::each_at))]
fn round<R: Threads + Wait + Sync, G: Gate + Sync, D: ErrorDevice, B: Lent>(
    rt: &R,
    shared: &Shared<B>,
    workers: &mut [Worker<D>],
    gate: &G,
) -> bool
    ensures { EachStays (map (hand_of D.left) workers.old) (map (hand_of D.left) workers.new) }
{
    work_all(rt, shared, workers, gate);
    workers.iter().any(|worker| worker.made)
}

/// Lets all workers work beside one another on the board behind the lock, each in its own thread, round after round.
/// The round in which no worker made a step is the last; there are 160,001 rounds at most. The lock of the board is all
/// that is waited for. Of each worker the actor and the limit stay, and so do all its acts: those that its device gave,
/// and behind them those that it is still to give.
#[tactic(auto, using(crate::proofs::Staying::each_same, crate::proofs::Staying::each_then))]
pub fn rounds<R: Threads + Wait + Sync, G: Gate + Sync, D: ErrorDevice, B: Lent>(
    rt: &R,
    shared: &Shared<B>,
    workers: &mut [Worker<D>],
    gate: &G,
)
    ensures { EachStays (map (hand_of D.left) workers.old) (map (hand_of D.left) workers.new) }
{
    for _ in 0..MOST_ROUNDS {
        if !round(rt, shared, workers, gate) {
            return;
        }
    }
}
