//! A board that keeps its own run: its plan, the acts that its reporters have made, the steps that were made with their
//! notes, and the copies that were published. A brief board keeps the same but the notes. Who watches a board is told
//! of each step as it is made.
//!
//! Contracts see a board as what was played on it: its plan, the acts that its reporters have made and the steps that
//! were made. All else that a board answers is that of the run of these steps.
#![tactic(auto)]

mod board;
mod brief;
mod housed;
mod kept;
mod log;
mod looks;
mod made;
mod making;
mod noting;
mod reporters;
mod sights;
mod stepping;
mod watch;

pub use board::Board;
pub use brief::Brief;
pub use watch::{Unheard, Watch};
