//! What the statements of a script made so far, and the first of them.

ghost use Rattle.std.specs.Prelude.{◌≡◌};
ghost use Rattle.board_plan.specs.Script.{
  Half as HalfPlan,
  most_harts,
  bare_board,
  version_of,
  board_of,
  versioned,
  board,
};
ghost use Rattle.board_script.specs.Reading.{texts};

use crate::op_table::OpTable;
use crate::words::{is, number_from_1_to};
use board_plan::{BankDecl, LineFault, List, Plan, RecDecl, Reporter, Start, Step};
use sse_base::EventDecl;
use std::alloc::Global;
use std::marker::Model;

// where the first op stands
const FIRST_ADDRESS: u64 = 0x1000;

/// What the statements so far made.
#[derive(Drop)]
pub(crate) struct Half {
    pub(crate) alloc: Global,
    pub(crate) version: u8,
    pub(crate) harts: u8,
    pub(crate) events: List<EventDecl>,
    pub(crate) banks: Vec<BankDecl>,
    // the banks whose gather number was given
    pub(crate) gathered: List<u8>,
    pub(crate) recs: List<RecDecl>,
    pub(crate) ops: OpTable,
    // where the next op stands
    pub(crate) next: u64,
    pub(crate) starts: List<Start>,
    // the sum of all budgets
    pub(crate) budgets: u32,
    pub(crate) reporters: Vec<Reporter>,
    pub(crate) schedule: Option<List<Step>>,
}

impl Model for Half {
    ghost use Rattle.std.specs.Prelude.{◌≡◌, ◌+◌, ◌*◌, ◌≤◌, length};
    ghost use Rattle.board_plan.specs.Script.{Half as HalfPlan, total_budget};

    ghost Value = { HalfPlan };

    ghost view = { λ h. record {
      plan = record {
        version = h.version;
        harts = h.harts;
        events = h.events;
        banks = h.banks.items;
        recs = h.recs;
        ops = h.ops;
        starts = h.starts;
        reporters = h.reporters.items;
        schedule = h.schedule;
      };
      next = h.next;
      gathered = h.gathered;
    } };

    ghost invariant = { λ h.
        (length h.banks.items ≤ 4) × (length h.reporters.items ≤ 8) × (length h.ops ≤ 4096)
        × (h.next ≤ 0xffff0000 + 4 * length h.ops) × (h.budgets ≡ total_budget h.starts) × (h.budgets ≤ 80000) };
}

fn most_harts(version: u8) -> u8
    ensures { result ≡ most_harts version }
{
    if version == 1 { 8 } else { 32 }
}

#[tactic(auto, unfolding(board_plan::specs::Script::version_of))]
fn version_of(word: &[u8]) -> Result<u8, LineFault>
    ensures { result ≡ version_of word.now }
{
    if is(word, b"1") {
        return Ok(1);
    }
    if is(word, b"2") {
        return Ok(2);
    }
    Err(LineFault::Head)
}

#[tactic(auto, unfolding(board_plan::specs::Script::total_budget))]
fn bare_board(alloc: Global, version: u8, harts: u8) -> Half
    ensures { result ≡ bare_board version harts }
{
    Half {
        alloc,
        version,
        harts,
        events: List::new(alloc),
        banks: Vec::new(alloc),
        gathered: List::new(alloc),
        recs: List::new(alloc),
        ops: OpTable::new(alloc),
        next: FIRST_ADDRESS,
        starts: List::new(alloc),
        budgets: 0,
        reporters: Vec::new(alloc),
        schedule: None,
    }
}

#[tactic(auto, unfolding(board_plan::specs::Script::board_of))]
fn board_of(alloc: Global, version: u8, words: &[&[u8]]) -> Result<Half, LineFault>
    ensures { result ≡ board_of version (texts words.now) }
{
    let [harts] = words else {
        return Err(LineFault::Count);
    };
    let harts = number_from_1_to(most_harts(version), harts)?;
    Ok(bare_board(alloc, version, harts))
}

#[tactic(auto, unfolding(board_plan::specs::Script::versioned))]
fn versioned(alloc: Global, words: &[&[u8]]) -> Result<Half, LineFault>
    ensures { result ≡ versioned (texts words.now) }
{
    let [version, words @ ..] = words else {
        return Err(LineFault::Count);
    };
    let version = version_of(version)?;
    board_of(alloc, version, words)
}

/// The first statement.
#[tactic(auto, unfolding(board_plan::specs::Script::board))]
pub(crate) fn board(alloc: Global, words: &[&[u8]]) -> Result<Half, LineFault>
    ensures { result ≡ board (texts words.now) }
{
    let [name, words @ ..] = words else {
        return Err(LineFault::Head);
    };
    if !is(name, b"board") {
        return Err(LineFault::Head);
    }
    versioned(alloc, words)
}

impl Half {
    /// The plan, once all statements are read.
    pub(crate) fn into_plan(self) -> Plan
        ensures { result ≡ self.plan }
    {
        let Half {
            alloc: _,
            version,
            harts,
            events,
            banks,
            gathered: _,
            recs,
            ops,
            next: _,
            starts,
            budgets: _,
            reporters,
            schedule,
        } = self;
        Plan {
            version,
            harts,
            events,
            banks: List::from_vec(banks),
            recs,
            ops: ops.into_list(),
            starts,
            reporters: List::from_vec(reporters),
            schedule,
        }
    }
}
