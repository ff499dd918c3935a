//! Boards of scripts, tried step by step.

use board_core::Board;
use board_plan::{Counts, Fates, Published, Step, StepNote};
use board_report::trace;
use board_script::read;
use hart_ctx::{Regs, Saved};
use ras_device::Act;
use ras_io::{MemSink, Sink};
use ras_text::{number, words};
use reri_fields::{Phase, RecordCopy};
use sse_base::Instance;
use std::alloc::Global;
use std::test::Fail;

/// A board of the plan that a script gives, before its first step.
fn board_of(alloc: Global, script: &[u8]) -> Result<Board, Fail> {
    if script.len() > 4096 {
        return Err(Fail::new("a long script"));
    }
    let plan = read(alloc, script)?;
    Ok(Board::new(alloc, &plan)?)
}

/// Tries the step of a hart or of a reporter with its next listed act. A hart or reporter that isn't on the board has
/// none.
fn try_step(board: &mut Board, step: Step) -> StepNote {
    match step {
        Step::Hart(hart) => {
            if hart >= board.plan().harts {
                return StepNote::Idle;
            }
            board.hart_step(hart)
        }
        Step::Reporter(reporter) => {
            if reporter as usize >= board.plan().reporters.as_slice().len() {
                return StepNote::Idle;
            }
            let act = board.listed(reporter);
            board.reporter_step(reporter, act)
        }
    }
}

// who is named by a letter and a number
fn actor(word: &[u8]) -> Option<Step> {
    let [letter, digits @ ..] = word else {
        return None;
    };
    let number = number(digits)?.min(255) as u8;
    Some(if *letter == b'h' {
        Step::Hart(number)
    } else {
        Step::Reporter(number)
    })
}

/// Tries these steps, as `r0 h0 h1`, and says how many were idle.
fn try_steps(board: &mut Board, steps: &[u8]) -> u64 {
    let mut idle = 0u64;
    for word in words(steps) {
        if let Some(step) = actor(word) {
            let note = try_step(board, step);
            if note == StepNote::Idle {
                idle = idle.wrapping_add(1);
            }
        }
    }
    idle
}

/// The trace of a board.
fn trace_of(alloc: Global, board: &Board) -> Result<Vec<u8>, Fail> {
    let mut sink = MemSink::new(alloc, 16384, Vec::new(alloc))?;
    trace(board, &mut sink)?;
    Ok(Vec::from_slice(alloc, sink.bytes())?)
}

/// What is seen of bank 0 of a board.
#[derive(Drop)]
pub(crate) struct BankView {
    pub(crate) asks: bool,
    pub(crate) drain: Option<(Phase, u8)>,
    pub(crate) copies: Vec<RecordCopy>,
    pub(crate) bytes: Vec<u8>,
}

/// What is seen of a board after some tries: how many of them were idle, its trace, fates and published copies, hart 0
/// with its oldest handler, reporter 0 with its acts and its next one, and bank 0.
#[derive(Drop)]
pub(crate) struct View {
    pub(crate) idle: u64,
    pub(crate) steps: usize,
    pub(crate) torn: usize,
    pub(crate) places: usize,
    pub(crate) trace: Vec<u8>,
    pub(crate) fates: Fates,
    pub(crate) published: Vec<Published>,
    pub(crate) regs: Regs,
    pub(crate) counts: Counts,
    pub(crate) running: Option<(Instance, Saved)>,
    pub(crate) wants: bool,
    pub(crate) acts: Vec<Act>,
    pub(crate) listed: Option<Act>,
    pub(crate) bank: Option<BankView>,
}

fn look_at_bank(alloc: Global, board: &Board) -> Result<Option<BankView>, Fail> {
    if board.plan().banks.as_slice().is_empty() {
        return Ok(None);
    }
    Ok(Some(BankView {
        asks: board.bank(0).asks(),
        drain: board.drain(0),
        copies: Vec::from_slice(alloc, board.slot(0).copies())?,
        bytes: Vec::from_slice(alloc, board.slot(0).bytes())?,
    }))
}

fn look_at_acts(alloc: Global, board: &Board) -> Result<Vec<Act>, Fail> {
    if board.plan().reporters.as_slice().is_empty() {
        return Ok(Vec::new(alloc));
    }
    Ok(Vec::from_slice(alloc, board.acts(0))?)
}

fn look_at_running(board: &Board) -> Option<(Instance, Saved)> {
    let firmware = board.firmware();
    if firmware.harts() == 0 || firmware.depth(0) == 0 {
        return None;
    }
    Some(firmware.running(0, 0))
}

fn count_torn(notes: &[StepNote]) -> usize {
    notes
        .iter()
        .filter(|note| matches!(note, StepNote::Check { torn: true, .. }))
        .count()
}

fn look(alloc: Global, board: &Board, idle: u64) -> Result<View, Fail> {
    if board.plan().harts == 0 {
        return Err(Fail::new("a board has a hart"));
    }
    Ok(View {
        idle,
        steps: board.steps().len(),
        torn: count_torn(board.notes()),
        places: board.places(),
        trace: trace_of(alloc, board)?,
        fates: board.fates(),
        published: Vec::from_slice(alloc, board.published())?,
        regs: *board.firmware().regs(0),
        counts: board.counts(0),
        running: look_at_running(board),
        wants: board.wants(0),
        acts: look_at_acts(alloc, board)?,
        listed: board.listed(0),
        bank: look_at_bank(alloc, board)?,
    })
}

/// What is seen of a script's board after these tries.
pub(crate) fn play(alloc: Global, script: &[u8], steps: &[u8]) -> Result<View, Fail> {
    let mut board = board_of(alloc, script)?;
    let idle = try_steps(&mut board, steps);
    look(alloc, &board, idle)
}

// the next number of a linear congruential generator
fn next(state: &mut u64) -> u64 {
    *state = state
        .wrapping_mul(6364136223846793005)
        .wrapping_add(1442695040888963407);
    *state >> 33
}

// a hart or a reporter that is drawn at random, some of which a board of three harts and two reporters hasn't
fn drawn(state: &mut u64) -> Step {
    let who = next(state) % 16;
    if who < 12 {
        Step::Hart((who % 4) as u8)
    } else {
        Step::Reporter((who % 3) as u8)
    }
}

fn try_drawn(board: &mut Board, seed: u64, count: u16) -> u64 {
    let mut state = seed;
    let mut idle = 0u64;
    for _ in 0..count {
        let step = drawn(&mut state);
        if try_step(board, step) == StepNote::Idle {
            idle = idle.wrapping_add(1);
        }
    }
    idle
}

/// What is seen of a script's board after so many tries that are drawn at random.
pub(crate) fn play_drawn(
    alloc: Global,
    script: &[u8],
    seed: u64,
    count: u16,
) -> Result<View, Fail> {
    let mut board = board_of(alloc, script)?;
    let idle = try_drawn(&mut board, seed, count);
    look(alloc, &board, idle)
}
