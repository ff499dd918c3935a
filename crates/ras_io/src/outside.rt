//! Where bytes come from and where they go (the traits are this project's own).
ghost use Rattle.std.specs.Prelude.{◌≡◌, ℕ, List, Option};
ghost use Rattle.std.specs.Io.{ReadsAtMost};
ghost use Rattle.std.specs.Io.KnownBytes.{ReadConsumes};
ghost use Rattle.ras_io.specs.Causes.{HasCause, Puts, one_more};

use crate::faults::{SinkFault, SourceFault};

/// Where bytes come from. `left` is what is still to be read, where the source tells it, and
/// `faults` is a count of the faults so far, which never falls.
pub trait Source {
    ghost left: { Self → Option (List ℕ) };

    ghost faults: { Self → ℕ };

    /// Reads some bytes into the front of `buf`, and says how many. Ok(0) at a `buf` that isn't
    /// empty is the end of input. `SourceFault` comes only where the count rose, and takes nothing.
    fn read(&mut self, buf: &mut [u8]) -> Result<usize, SourceFault>
        ensures bound { ReadsAtMost result buf.new }
        ensures bytes { ReadConsumes (left self.old) (left self.new) result buf.new }
        ensures cause { HasCause (faults self.old) (faults self.new) result };
}

/// Where bytes go. `written` is what was written so far, where the sink tells it; `writes` counts the
/// calls of `write`, and stops at its last value; `faults` is a count of the faults so far, which never
/// falls.
pub trait Sink {
    ghost written: { Self → Option (List ℕ) };

    ghost writes: { Self → ℕ };

    ghost faults: { Self → ℕ };

    /// Appends all of `bytes`, or on a `SinkFault` a front of them. The fault comes only where the
    /// count rose.
    fn write(&mut self, bytes: &[u8]) -> Result<(), SinkFault>
        ensures bytes { Puts (written self.old) (written self.new) result bytes.now }
        ensures counted { writes self.new ≡ one_more (writes self.old) }
        ensures cause { HasCause (faults self.old) (faults self.new) result };
}
