//! Lines on their way to a sink: nothing more is written once a write has failed.

ghost use Rattle.std.specs.Prelude.{◌≡◌, ◌≤◌, [], ◌∷◌, length, Ok};
ghost use Rattle.ras_text.specs.Lines.{text_of};
ghost use Rattle.board_report.specs.Writing.{Adds, SamePages};

use ras_io::{Sink, SinkFault};
use ras_text::Line;

/// Lines that go to a sink, and what came of it so far.
#[derive(Drop)]
pub(crate) struct Pages<'a, K: Sink> {
    /// The line under way.
    pub(crate) line: Line<'a, K>,
    /// The fault of the first write that failed, if one did.
    pub(crate) outcome: Result<(), SinkFault>,
}

impl<'a, K: Sink> Pages<'a, K> {
    /// Ends the line under way, and writes it. No write has failed before.
    pub(crate) fn end(&mut self)
        requires going { self.old.outcome ≡ Ok tt }
        requires short { length (text_of self.old.line) ≤ 512 }
        ensures empty { text_of self.new.line ≡ [] }
        ensures wrote { Adds K.written K.faults K.writes self.old self.new (text_of self.old.line ∷ []) }
        ensures same_pages { SamePages self.new self.old }
    {
        self.outcome = self.line.end();
    }
}
