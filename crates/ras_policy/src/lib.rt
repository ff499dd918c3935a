//! Which pages of memory to retire, by the copies of error records that drains published: pages that were struck by
//! an uncorrected error, or by many corrected ones.
#![tactic(auto)]

mod grouping;
mod ledger;
mod marks;
mod policy;

pub use ledger::Ledger;
pub use marks::Page;
pub use policy::pages;
