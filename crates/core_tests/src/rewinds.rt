//! A worker that is rewound, and the steps that are tried again with it.

ghost use Rattle.board_plan.specs.Plans.{IsPlan};
ghost use Rattle.board_core.specs.Played.{AreListsReports};

use crate::reports::report_of;
use crate::turns::ALONE;
use board_core::Board;
use board_lock::{OpenGate, Shared, Worker, replay, work};
use board_plan::Plan;
use board_script::read;
use ras_device::{Act, Scrubber};
use std::alloc::Global;
use std::sync::Wait;
use std::test::Fail;

/// The two workers of that board, in one order or the other.
fn both(
    alloc: Global,
    worker: Worker<Scrubber>,
    hart_first: bool,
) -> Result<Vec<Worker<Scrubber>>, Fail> {
    let mut workers = Vec::new(alloc);
    if hart_first {
        workers.push(Worker::hart(0))?;
        workers.push(worker)?;
        return Ok(workers);
    }
    workers.push(worker)?;
    workers.push(Worker::hart(0))?;
    Ok(workers)
}

/// The report of a second board of the plan, after the steps of a first one are tried there by these workers.
fn replayed(
    alloc: Global,
    plan: &Plan,
    first: &Board,
    workers: &mut [Worker<Scrubber>],
) -> Result<Vec<u8>, Fail>
    requires plan { IsPlan plan.now }
    requires reports { AreListsReports plan.now }
{
    let mut second = Board::new(alloc, plan)?;
    replay(first.steps(), workers, &mut second);
    report_of(alloc, &second)
}

/// Whether the acts that a board's first reporter has made are these.
fn has_made(board: &Board, acts: &[Act]) -> bool {
    if board.plan().reporters.as_slice().is_empty() {
        return false;
    }
    board.acts(0) == acts
}

/// Has a worker work alone, rewinds it, and tries the same steps again with it.
fn work_twice<R: Wait>(rt: &R, alloc: Global, hart_first: bool) -> Result<bool, Fail> {
    let plan = read(alloc, ALONE)?;
    let shared = Shared::new(Board::new(alloc, &plan)?);
    let mut worker = Worker::reporter(alloc, 1, 0, Some(Scrubber::new(0, 0, 2)), 3)?;
    work(rt, &mut worker, &shared, &OpenGate);
    let first = shared.into_board();
    let gave_two = worker.given().len() == 2 && has_made(&first, worker.given());
    worker.rewind();
    let keeps_them = has_made(&first, worker.given());
    let mut workers = both(alloc, worker, hart_first)?;
    let again = replayed(alloc, &plan, &first, workers.as_mut_slice())?;
    let once = report_of(alloc, &first)?;
    Ok(gave_two && keeps_them && again.as_slice() == once.as_slice())
}

#[test]
fn given_acts_are_handed_on_again(rt: HostRuntime) -> Result<(), Fail> {
    assert!(rt; work_twice(&rt, rt.alloc(), false)?);
    assert!(rt; work_twice(&rt, rt.alloc(), true)?);
    Ok(())
}
