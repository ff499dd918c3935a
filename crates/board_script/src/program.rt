//! Ops at their addresses, and where harts start.

ghost use Rattle.std.specs.Prelude.{◌≡◌};
ghost use Rattle.board_plan.specs.Script.{
  has_start,
  with_address,
  placed,
  with_op,
  start_of,
  with_start,
};
ghost use Rattle.board_script.specs.Reading.{texts, Moves};

use crate::fault::ReadFault;
use crate::half::Half;
use crate::op_forms::op_of;
use crate::words::{any_number, number_below, number_upto, op_address};
use board_plan::{LineFault, Op, Placed, Start};

const MOST_OPS: usize = 4096;

const MOST_BUDGET: u64 = 10_000;

const MOST_BUDGETS: u32 = 80_000;

#[tactic(auto, unfolding(board_plan::specs::Script::has_start))]
fn has_start(hart: u8, starts: &[Start]) -> bool
    ensures { result ≡ has_start hart starts.now }
{
    starts.iter().any(|start| start.hart == hart)
}

impl Half {
    #[tactic(auto, unfolding(board_plan::specs::Script::with_address))]
    pub(crate) fn with_address(&mut self, words: &[&[u8]]) -> Result<(), ReadFault>
        ensures { Moves result self.new (with_address self.old (texts words.now)) }
    {
        let [addr] = words else {
            return Err(ReadFault::Line(LineFault::Count));
        };
        let addr = op_address(addr)?;
        self.next = addr;
        Ok(())
    }

    /// Places an op at the next address.
    #[tactic(auto, unfolding(board_plan::specs::Script::placed))]
    fn place(&mut self, op: Op) -> Result<(), ReadFault>
        ensures { Moves result self.new (placed self.old op) }
    {
        if self.ops.has(self.next) {
            return Err(ReadFault::Line(LineFault::Twice));
        }
        if self.ops.len() >= MOST_OPS {
            return Err(ReadFault::Line(LineFault::Full));
        }
        self.ops.add(Placed { pc: self.next, op })?;
        self.next += 4;
        Ok(())
    }

    #[tactic(auto, unfolding(board_plan::specs::Script::with_op))]
    pub(crate) fn with_op(&mut self, words: &[&[u8]]) -> Result<(), ReadFault>
        ensures { Moves result self.new (with_op self.old (texts words.now)) }
    {
        let [name, words @ ..] = words else {
            return Err(ReadFault::Line(LineFault::Count));
        };
        let op = op_of(name, words)?;
        self.place(op)
    }

    #[tactic(auto, unfolding(board_plan::specs::Script::start_of))]
    fn start_of(&mut self, hart: &[u8], pc: &[u8], budget: &[u8]) -> Result<(), ReadFault>
        ensures { Moves result self.new (start_of self.old hart.now pc.now budget.now) }
    {
        let hart = number_below(self.harts, hart)?;
        let pc = any_number(pc)?;
        let budget = number_upto(MOST_BUDGET, budget)? as u16;
        if has_start(hart, self.starts.as_slice()) {
            return Err(ReadFault::Line(LineFault::Twice));
        }
        let budgets = self.budgets + u32::from(budget);
        if budgets > MOST_BUDGETS {
            return Err(ReadFault::Line(LineFault::Full));
        }
        self.starts.push(Start { hart, pc, budget })?;
        self.budgets = budgets;
        Ok(())
    }

    #[tactic(auto, unfolding(board_plan::specs::Script::with_start))]
    pub(crate) fn with_start(&mut self, words: &[&[u8]]) -> Result<(), ReadFault>
        ensures { Moves result self.new (with_start self.old (texts words.now)) }
    {
        let [hart, pc, budget] = words else {
            return Err(ReadFault::Line(LineFault::Count));
        };
        self.start_of(hart, pc, budget)
    }
}
