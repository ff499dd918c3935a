//! The error status block: the registers of one to four error records as bytes and back, and the slot that holds them
//! until it is acknowledged.
//!
//! The layout is that of ACPI 6.5, 18.3.2.7: a Generic Error Status Block, and in it one Generic Error Data Entry of
//! revision 0x0300 for each record.
#![tactic(auto)]

mod block;
mod copies;
mod parts;
mod reading;
mod slot;

pub use block::{Block, MOST_BYTES, encode, encode_all};
pub use copies::{MOST_COPIES, is_copy};
pub use reading::{decode, decode_all};
pub use slot::Slot;
