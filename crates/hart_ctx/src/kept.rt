//! What a running handler keeps.

ghost use Rattle.std.specs.Prelude.{◌≤◌};

use crate::regs::Saved;
use sse_base::{EventId, Instance};

/// A handler that runs, and what its delivery wrote over.
#[derive(Clone, Copy, Debug)]
pub struct Kept {
    pub at: Instance,
    pub saved: Saved,
    ghost flags_fit: { saved.flags ≤ 3 },
}

impl Default for Kept {
    /// Fills a place in which no handler is kept.
    fn default() -> Self {
        Kept {
            at: Instance::Global { id: EventId(0) },
            saved: Saved {
                sepc: 0,
                flags: 0,
                a6: 0,
                a7: 0,
            },
        }
    }
}
