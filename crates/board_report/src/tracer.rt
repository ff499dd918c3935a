//! A trace that is written as the steps are made.

use crate::run_lines::put_step;
use board_core::Watch;
use board_plan::{Step, StepNote};
use ras_io::{Sink, SinkFault};
use ras_text::Line;

/// Writes a line of a trace for each step that it is told of, as it is told; each line is one write. Once a write has
/// failed, it writes no more. This project's own. A trace begins with
/// `Tracer { line: Line::new(sink), number: 1, outcome: Ok(()) }`. In clauses `sink_of` is the sink that it writes to,
/// `number_of` the number of the next step, and `outcome_of` what came of its writes.
#[derive(Drop)]
pub struct Tracer<'a, K: Sink> {
    /// Where the lines are made: what stands there when a step is told is dropped.
    pub line: Line<'a, K>,
    /// The number of the next step.
    pub number: u64,
    /// The fault of the first write that failed, if one did.
    pub outcome: Result<(), SinkFault>,
}

impl<'a, K: Sink> Watch for Tracer<'a, K> {
    ghost use Rattle.board_report.specs.Tracing.{Traces};

    ghost told = { Traces K.written K.faults K.writes };

    fn tell(&mut self, by: Step, note: &StepNote) {
        let number = self.number;
        self.number = number.saturating_add(1);
        if let Err(_) = self.outcome {
            return;
        }
        self.line.clear();
        put_step(&mut self.line, number, by, note);
        self.outcome = self.line.end();
    }
}
