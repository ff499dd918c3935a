//! Plans as canonical texts, which are read as those plans again.

ghost use Rattle.std.specs.Prelude.{◌≡◌};
ghost use Rattle.ras_io.specs.Causes.{HasCause, Puts};
ghost use Rattle.board_plan.specs.Canonical.{canonical, moved};
ghost use Rattle.board_script.specs.Again.{IsReadAgain, IsReadWhenMoved};

use board_plan::Plan;
use ras_io::{Sink, SinkFault};

/// Writes the canonical text of a plan, each line in one write. Of a plan that a script has, that text is a script
/// of this very plan. SinkFault comes only where the sink failed, of which its count tells, and then a front of the
/// text was written. The text is this project's own.
pub fn write<K: Sink>(plan: &Plan, sink: &mut K) -> Result<(), SinkFault>
    ensures bytes { Puts (K.written sink.old) (K.written sink.new) result (canonical plan.now) }
    ensures cause { HasCause (K.faults sink.old) (K.faults sink.new) result }
    ensures again { IsReadAgain plan.now }
{
    script_write::write(plan, sink)
}

/// Moves a plan to version 2: its banks go on gathering one copy, and all else stays. A plan of version 2 stays
/// as it is. Where the plan was a script's, so is the new one: of its own canonical text. The rule is this project's
/// own.
pub fn moved(plan: &mut Plan)
    ensures moved { plan.new ≡ moved plan.old }
    ensures again { IsReadWhenMoved plan.old plan.new }
{
    script_write::moved(plan);
}
