//! The whole run of a plan by a worker for each of its harts and reporters.

ghost use Rattle.std.specs.Prelude.{◌≡◌, IfOk};
ghost use Rattle.board_plan.specs.Plans.{IsPlan};
ghost use Rattle.board_core.specs.Played.{AreListsReports};
ghost use Rattle.board_lock.specs.Hiring.{IsWholeRun, left_in};

use crate::gate::Gate;
use crate::hiring::{hire, rewind_all};
use crate::lock::{Shared, rounds};
use crate::replaying::replay_on;
use board_core::Brief;
use board_plan::Plan;
use ras_device::ErrorDevice;
use ras_io::NoMemory;
use std::alloc::Global;
use std::sync::Wait;
use std::thread::Threads;

/// Runs a plan: each hart and each reporter gets a worker, and all workers step beside one another on one board behind
/// a lock, up to a round in which none of them made a step. Then the steps of that board are tried on a second one, in
/// the order in which the lock kept them; reporters are handed the same acts again, and devices are asked for more only
/// when these are used up. Rounds of tries follow, of which the first idle one is the last. The second board is the
/// answer: each of its steps was made, and no one has a step after them. A reporter that names a device has the one of
/// that place in the list, and no acts where there is none. Neither board keeps notes. `NoMemory` comes only where no
/// room was found, and all of it is taken before the first step. This project's own.
pub fn run_plan<R: Threads + Wait + Sync, G: Gate + Sync, D: ErrorDevice>(
    rt: &R,
    alloc: Global,
    plan: Plan,
    devices: Vec<D>,
    gate: &G,
) -> Result<Brief, NoMemory>
    requires plan { IsPlan plan }
    requires reports { AreListsReports plan }
    ensures { IfOk result (λ b. IsWholeRun plan (left_in D.left devices.items) b) }
{
    let copy = plan.copy(alloc)?;
    let shared = Shared::of(Brief::new(alloc, copy)?);
    let mut all = hire(alloc, &plan, devices)?;
    let mut board = Brief::new(alloc, plan)?;
    let workers = all.as_mut_slice();
    rounds(rt, &shared, workers, gate);
    let locked = shared.into_inner();
    rewind_all(workers);
    replay_on(locked.steps(), workers, &mut board);
    let _steps = board.steps();
    Ok(board)
}
