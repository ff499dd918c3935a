//! Further devices: two that keep time, and two that are made of other devices.
#![tactic(auto)]

mod alternate;
mod chain;
mod countdown;
mod pmu;

pub use alternate::Alternate;
pub use chain::Chain;
pub use countdown::CountdownDevice;
pub use pmu::PmuDevice;
