//! What a hart runs: its registers, the handlers that interrupt one another on it, and the board's memory.
#![tactic(auto)]

mod contexts;
mod kept;
mod memory;
mod regs;
mod scan;

pub use contexts::Contexts;
pub use memory::Memory;
pub use regs::{Regs, Saved, enter, resume};
pub use sse_base::Privilege;
