//! Bytes in and bytes out, each with a count of the faults of the outside.
#![tactic(auto)]

mod faults;
mod memory;
mod outside;
mod standard;
mod whole;

pub use faults::{NoMemory, SinkFault, SourceFault};
pub use memory::{MemSink, MemSource};
pub use outside::{Sink, Source};
pub use standard::{StdSink, StdSource};
pub use whole::{MAX_INPUT, ReadAllError, read_all};
