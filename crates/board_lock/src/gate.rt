//! What a worker calls before it takes the board's lock.

/// Is told of each try before the worker takes the board's lock. A test can hold a worker back here. This project's
/// own.
pub trait Gate {
    /// An actor is about to try its turn of this number. An actor's number is its place in a round: harts first, then
    /// reporters. Turns count from 0 and stay at 2^64 - 1 once they are there.
    fn arrive(&self, actor: u8, turn: u64);
}

/// A gate that holds nobody back.
#[derive(Clone, Copy, Debug, Default, PartialEq, Eq)]
pub struct OpenGate;

impl Gate for OpenGate {
    fn arrive(&self, _actor: u8, _turn: u64) {}
}
