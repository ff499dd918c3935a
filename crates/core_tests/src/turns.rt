//! Turns of lone workers on a board that is lent.

use board_core::Board;
use board_lock::Worker;
use board_plan::StepNote;
use board_script::read;
use ras_device::Scrubber;
use std::alloc::Global;
use std::test::Fail;

// a reporter, and a hart that makes no step
pub(crate) const ALONE: &[u8] = b"board 1 1
bank 0 local 1
record 0 0 0x97 0
reporter device 0 3
";

/// What some turns came to.
#[derive(Clone, Copy)]
struct Turns {
    /// Whether those were idle of a hart without a budget, a hart that isn't there and a reporter without a device.
    idle: [bool; 3],
    /// Whether the first was, and then the second, of a reporter that may act once.
    once: [bool; 2],
    given: usize,
    steps: usize,
}

/// Makes a turn of each of these workers, and two of the last.
fn make_turns(alloc: Global) -> Result<Turns, Fail> {
    let plan = read(alloc, ALONE)?;
    let mut board = Board::new(alloc, &plan)?;
    let mut hart: Worker<Scrubber> = Worker::hart(0);
    let mut absent: Worker<Scrubber> = Worker::hart(7);
    let mut bare: Worker<Scrubber> = Worker::reporter(alloc, 1, 0, None, 3)?;
    let mut low = Worker::reporter(alloc, 1, 0, Some(Scrubber::new(0, 0, 9)), 1)?;
    let idle = [
        hart.turn(&mut board) == StepNote::Idle,
        absent.turn(&mut board) == StepNote::Idle,
        bare.turn(&mut board) == StepNote::Idle,
    ];
    let first = low.turn(&mut board) == StepNote::Idle;
    let second = low.turn(&mut board) == StepNote::Idle;
    Ok(Turns {
        idle,
        once: [first, second],
        given: low.given().len(),
        steps: board.steps().len(),
    })
}

#[test]
fn a_turn_is_one_try(rt: HostRuntime) -> Result<(), Fail> {
    let came = make_turns(rt.alloc())?;
    assert_eq!(rt; came.idle, [true, true, true]);
    assert_eq!(rt; came.once, [false, true]);
    assert_eq!(rt; came.given, 1);
    assert_eq!(rt; came.steps, 1);
    Ok(())
}
