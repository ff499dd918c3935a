//! Tests of a board: lists of calls of its harts and reporters, and what they leave; and of the workers that make its
//! steps by turns.
#![tactic(auto)]

#[cfg(test)]
mod bench;
#[cfg(test)]
mod drains;
#[cfg(test)]
mod gathers;
#[cfg(test)]
mod harts;
#[cfg(test)]
mod random;
#[cfg(test)]
mod reporters;
#[cfg(test)]
mod reports;
#[cfg(test)]
mod rewinds;
#[cfg(test)]
mod turns;
