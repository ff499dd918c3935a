//! The firmware of a board: the ten calls of supervisor software events, and their delivery, over every hart.
#![tactic(auto)]

mod firmware;
mod parts;

pub use firmware::Firmware;
pub use hart_ctx::{Contexts, Memory, Privilege, Regs, Saved};
pub use parts::CallNote;
pub use sse_base::{EventDecl, EventId, Instance, Reply, SbiCode};
pub use sse_table::Table;
pub use sse_target::{Looks, Targets};
