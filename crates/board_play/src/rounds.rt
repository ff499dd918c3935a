//! The whole run of a plan.

ghost use Rattle.std.specs.Prelude.{◌≡◌, [], IfOk, List, OnErr, map};
ghost use Rattle.ras_device.specs.declared.act.Act.{Act};
ghost use Rattle.board_plan.specs.Plans.{IsPlan};
ghost use Rattle.board_core.specs.Played.{AreListsReports, own_run};
ghost use Rattle.board_core.specs.Watched.{ToldAll};
ghost use Rattle.board_play.specs.Tried.{Fits, HasTried, HasRounds, Tells, lefts};
ghost use Rattle.board_play.specs.Played.{IsRunOf};

use crate::devices::placed;
use crate::tries::{try_round, try_steps};
use board_core::{Brief, Watch};
use board_parts::Outcome;
use board_plan::{List, Plan, Step};
use ras_device::ErrorDevice;
use ras_io::NoMemory;
use std::alloc::Global;

/// Plays rounds up to the first in which nobody made a step. Each round before it makes a step, and there are no more
/// steps than the plan allows, so this ends.
fn try_rounds<D: ErrorDevice, W: Watch>(
    board: &mut Brief,
    devices: &mut [Option<D>],
    outcome: &mut Outcome,
    watch: &mut W,
)
    ensures rounds { (given : List (List Act)) → Fits given board.old (lefts D.left devices.old)
        → HasTried board.old.plan given board.old [] → HasRounds board.old.plan given board.new }
    ensures plan { board.new.plan ≡ board.old.plan }
    ensures tells { Tells W.told board.old board.new watch.old watch.new }
{
    while try_round(board, devices, outcome, watch) {}
}

/// A copy of a plan's schedule, where it has one. `NoMemory` comes where no room was found for it.
fn schedule_of(alloc: Global, plan: &Plan) -> Result<Option<List<Step>>, NoMemory>
    ensures { IfOk result (λ schedule. schedule ≡ plan.now.schedule) }
{
    let Some(steps) = &plan.schedule else {
        return Ok(None);
    };
    Ok(Some(steps.copy(alloc)?))
}

/// Plays a plan on a board of its own, which takes the plan over: what its schedule gives where there is one, else
/// rounds up to the first in which nobody made a step. The acts of a reporter that names a device are those that the
/// device gives, and none where it isn't there. A device is asked for one act at each try of its reporter, as long as
/// the reporter is wanted; at the first try after that it is dropped, or else at the end. The watcher is told of each
/// step as it is made. All memory is taken before the first step: `NoMemory` comes only where no room was found, and
/// then nothing was told.
pub fn play_plan<D: ErrorDevice, W: Watch>(
    alloc: Global,
    plan: Plan,
    devices: Vec<D>,
    watch: &mut W,
) -> Result<Brief, NoMemory>
    requires plan { IsPlan plan }
    requires reports { AreListsReports plan }
    ensures run { IfOk result (λ board. IsRunOf plan (map (λ d. (D.left d).acts) devices.items) board) }
    ensures told { IfOk result (λ board. ToldAll W.told (own_run board).notes watch.old watch.new) }
    ensures silent { OnErr result (watch.new ≡ watch.old) }
{
    let mut places = placed(alloc, devices)?;
    let schedule = schedule_of(alloc, &plan)?;
    let mut board = Brief::new(alloc, plan)?;
    let mut outcome = Outcome::new();
    let places = places.as_mut_slice();
    match &schedule {
        Some(schedule) => try_steps(&mut board, places, schedule.as_slice(), &mut outcome, watch),
        None => try_rounds(&mut board, places, &mut outcome, watch),
    }
    Ok(board)
}
