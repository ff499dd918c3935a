//! The top call: plays a script and writes what its command asks for.
#![tactic(auto)]

mod command;
mod outputs;
mod pages;
mod playing;
mod running;
mod status;

pub use command::{Command, Shown};
pub use playing::play;
pub use running::run;
pub use status::Status;
