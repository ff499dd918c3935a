//! What can go wrong outside the firmware (the names are this project's own).
use thiserror::Error;

/// No memory was found. It is the one answer that every call which takes memory may give at any
/// time.
#[derive(Debug, Clone, Copy, PartialEq, Eq, Error)]
#[error("out of memory")]
pub struct NoMemory;

/// A source failed, and its count of faults rose.
#[derive(Debug, Clone, Copy, PartialEq, Eq, Error)]
#[error("the input failed")]
pub struct SourceFault;

/// A sink failed, and its count of faults rose.
#[derive(Debug, Clone, Copy, PartialEq, Eq, Error)]
#[error("the output failed")]
pub struct SinkFault;
