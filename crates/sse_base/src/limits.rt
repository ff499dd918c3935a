//! How large a board can be.

/// The most harts of a board, numbered from 0. This project's own.
pub const MAX_HARTS: u8 = 32;

/// The most events that are declared for a board. This project's own.
pub const MAX_EVENTS: usize = 8;

/// The most instances of a board: each of its events on each of its harts.
pub const MAX_INSTANCES: u16 = 256;
