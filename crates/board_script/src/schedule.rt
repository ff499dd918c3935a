//! The schedule.

ghost use Rattle.std.specs.Prelude.{◌≡◌};
ghost use Rattle.board_plan.specs.Script.{with_entries, with_schedule};
ghost use Rattle.board_script.specs.Reading.{texts, Gives, Moves};

use crate::fault::ReadFault;
use crate::half::Half;
use crate::words::entry;
use board_plan::{LineFault, List, Step};

const MOST_ENTRIES: usize = 200_000;

/// Steps with the entries of further words behind them.
#[tactic(auto, unfolding(board_plan::specs::Script::with_entries))]
fn with_entries(
    harts: u8,
    reporters: u8,
    mut steps: List<Step>,
    words: &[&[u8]],
) -> Result<List<Step>, ReadFault>
    ensures { Gives result (with_entries harts reporters steps (texts words.now)) }
{
    for word in words {
        let step = entry(harts, reporters, word)?;
        steps.push(step)?;
    }
    Ok(steps)
}

impl Half {
    #[tactic(auto, unfolding(board_plan::specs::Script::with_schedule))]
    pub(crate) fn with_schedule(&mut self, words: &[&[u8]]) -> Result<(), ReadFault>
        ensures { Moves result self.new (with_schedule self.old (texts words.now)) }
    {
        let before = match self.schedule.take() {
            None => List::new(self.alloc),
            Some(steps) => steps,
        };
        let reporters = self.reporters.len() as u8;
        let steps = with_entries(self.harts, reporters, before, words)?;
        if steps.as_slice().len() > MOST_ENTRIES {
            return Err(ReadFault::Line(LineFault::Full));
        }
        self.schedule = Some(steps);
        Ok(())
    }
}
