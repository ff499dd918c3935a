//! The drain of a bank: firmware takes errors out of the bank's records, one phase a step, while errors go on coming.
//!
//! Read-in-progress and the invalidation are named after RERI 1.0 (`srdp` and `sinv` of `control_i`, `rdip` of
//! `status_i`). Their exact rules, the phases, that a drain gathers several copies and that it signals once are this
//! project's own.
#![tactic(auto)]

mod drain;
mod phases;

pub use drain::Drain;
pub use reri_fields::{DrainNote, Phase};
