//! Tries of harts and reporters, one after another: a try that has no step is passed over, and a watcher is told of
//! each step that is made.

ghost use Rattle.std.specs.Prelude.{◌≡◌, ◌≤◌, [], ◌∷◌, IsTrue, List, length, map, true};
ghost use Rattle.std.specs.List.{range_with_len};
ghost use Rattle.ras_device.specs.declared.act.Act.{Act};
ghost use Rattle.board_plan.specs.declared.notes.Step.TheVariants.{Hart, Reporter};
ghost use Rattle.board_plan.specs.Notes.{has_text};
ghost use Rattle.board_plan.specs.Plans.{most_steps};
ghost use Rattle.board_plan.specs.Run.{round};
ghost use Rattle.board_plan.specs.Step.{wants};
ghost use Rattle.board_core.specs.Played.{IsReport, listed, state_of};
ghost use Rattle.board_play.specs.Tried.{Goes, Hands, Plays, Tells, TellsIf, lefts};

use crate::devices::ask;
use board_core::{Brief, Watch};
use board_parts::Outcome;
use board_plan::{Step, StepNote};
use ras_device::{Act, ErrorDevice};

/// Tells a watcher of a step where it was made.
fn tell_if<W: Watch>(watch: &mut W, made: bool, by: Step, note: &StepNote)
    requires { made ≡ true → IsTrue (has_text note.now) }
    ensures { TellsIf W.told made (record { by = by; note = note.now }) watch.old watch.new }
{
    if made {
        watch.tell(by, note);
    }
}

/// Tries a step of a hart, and says whether it made one.
pub(crate) fn try_hart<W: Watch>(
    board: &mut Brief,
    hart: u8,
    outcome: &mut Outcome,
    watch: &mut W,
) -> bool
    ensures goes { (left : List (List Act)) → Goes board.old left (Hart hart ∷ []) result board.new left }
    ensures tells { Tells W.told board.old board.new watch.old watch.new }
{
    let _harts = board.firmware().harts();
    if hart >= board.plan().harts {
        return false;
    }
    let made = board.hart_step(hart, outcome);
    tell_if(watch, made, Step::Hart(hart), &outcome.note);
    made
}

/// What a try of a reporter is made with: the act that its list has next, or, where it names a device and is wanted,
/// the one that the device gives. The device of a reporter that isn't wanted is let go.
fn next_act<D: ErrorDevice>(
    board: &Brief,
    devices: &mut [Option<D>],
    reporter: u8,
    device: Option<u8>,
) -> Option<Act>
    ensures hands { Hands device (wants board.now.plan reporter (state_of board.now)) (listed board.now reporter)
        (lefts D.left devices.old) result (lefts D.left devices.new) }
    ensures report { IsReport result }
{
    match device {
        None => board.listed(reporter),
        Some(number) => ask(devices, number, board.wants(reporter)),
    }
}

/// Tries a step of a reporter with the act that its list or its device has next, and says whether it made one.
pub(crate) fn try_reporter<D: ErrorDevice, W: Watch>(
    board: &mut Brief,
    devices: &mut [Option<D>],
    reporter: u8,
    outcome: &mut Outcome,
    watch: &mut W,
) -> bool
    ensures goes { Goes board.old (lefts D.left devices.old) (Reporter reporter ∷ []) result board.new
        (lefts D.left devices.new) }
    ensures tells { Tells W.told board.old board.new watch.old watch.new }
{
    let _steps = board.steps();
    let Some(decl) = board.plan().reporters.as_slice().get(reporter as usize) else {
        return false;
    };
    let device = decl.device;
    let act = next_act(board, devices, reporter, device);
    let made = board.reporter_step(reporter, act, outcome);
    tell_if(watch, made, Step::Reporter(reporter), &outcome.note);
    made
}

/// Tries a step, and says whether one was made.
pub(crate) fn try_step<D: ErrorDevice, W: Watch>(
    board: &mut Brief,
    devices: &mut [Option<D>],
    step: Step,
    outcome: &mut Outcome,
    watch: &mut W,
) -> bool
    ensures goes { Goes board.old (lefts D.left devices.old) (step ∷ []) result board.new (lefts D.left devices.new) }
    ensures tells { Tells W.told board.old board.new watch.old watch.new }
{
    match step {
        Step::Hart(hart) => try_hart(board, hart, outcome, watch),
        Step::Reporter(reporter) => try_reporter(board, devices, reporter, outcome, watch),
    }
}

/// Tries these steps, one after another.
pub(crate) fn try_steps<D: ErrorDevice, W: Watch>(
    board: &mut Brief,
    devices: &mut [Option<D>],
    steps: &[Step],
    outcome: &mut Outcome,
    watch: &mut W,
)
    ensures plays { Plays board.old (lefts D.left devices.old) steps.now board.new (lefts D.left devices.new) }
    ensures tells { Tells W.told board.old board.new watch.old watch.new }
{
    for step in steps {
        try_step(board, devices, *step, outcome, watch);
    }
}

/// Tries each hart once, and says whether one of them made a step.
fn try_harts<W: Watch>(board: &mut Brief, outcome: &mut Outcome, watch: &mut W) -> bool
    ensures goes { (left : List (List Act)) →
        Goes board.old left (map Hart (range_with_len 0 board.old.plan.harts)) result board.new left }
    ensures tells { Tells W.told board.old board.new watch.old watch.new }
{
    let mut made = false;
    for hart in 0..board.plan().harts {
        let moved = try_hart(board, hart, outcome, watch);
        made = made || moved;
    }
    made
}

/// Tries each reporter once, and says whether one of them made a step.
fn try_reporters<D: ErrorDevice, W: Watch>(
    board: &mut Brief,
    devices: &mut [Option<D>],
    outcome: &mut Outcome,
    watch: &mut W,
) -> bool
    ensures goes { Goes board.old (lefts D.left devices.old)
        (map Reporter (range_with_len 0 (length board.old.plan.reporters))) result board.new
        (lefts D.left devices.new) }
    ensures tells { Tells W.told board.old board.new watch.old watch.new }
{
    let _steps = board.steps();
    let mut made = false;
    for reporter in 0..board.plan().reporters.as_slice().len() as u8 {
        let moved = try_reporter(board, devices, reporter, outcome, watch);
        made = made || moved;
    }
    made
}

/// A round: one try of each hart and then one of each reporter. It says whether one of them made a step.
pub(crate) fn try_round<D: ErrorDevice, W: Watch>(
    board: &mut Brief,
    devices: &mut [Option<D>],
    outcome: &mut Outcome,
    watch: &mut W,
) -> bool
    ensures goes { Goes board.old (lefts D.left devices.old) (round board.old.plan) result board.new
        (lefts D.left devices.new) }
    ensures tells { Tells W.told board.old board.new watch.old watch.new }
    ensures few { length board.new.steps ≤ most_steps board.new.plan }
{
    let harts = try_harts(board, outcome, watch);
    let reporters = try_reporters(board, devices, outcome, watch);
    let _steps = board.steps();
    harts || reporters
}
