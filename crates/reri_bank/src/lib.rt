//! A bank of error records, seen from the registers that its readers have and from the errors that are reported to it.
//!
//! A bank of records, read-in-progress and the invalidation of a record follow RERI 1.0 (the error bank; `rdip` and
//! `v` of `status_i`; `srdp` and `sinv` of `control_i`). The layout of the accesses, the summary and the ask flag are
//! this project's own.
#![tactic(auto)]

mod access;
mod bank;
mod layout;
mod record;

pub use access::Access;
pub use bank::{Bank, MAX_RECORDS};
