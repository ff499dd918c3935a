//! Tests of the firmware, as tables of what happens on a board and what must come of it, and of its parts.
#![tactic(auto)]

#[cfg(test)]
mod acts;
#[cfg(test)]
mod calls;
#[cfg(test)]
mod choice;
#[cfg(test)]
mod contexts;
#[cfg(test)]
mod handlers;
#[cfg(test)]
mod sharing;
#[cfg(test)]
mod table;
