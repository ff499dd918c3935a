//! Tests of the top call: scripts that are played or moved, the commands that take a number, and what comes of them.
#![tactic(auto)]

#[cfg(test)]
mod commands;
#[cfg(test)]
mod drains;
#[cfg(test)]
mod faults;
#[cfg(test)]
mod first;
#[cfg(test)]
mod handlers;
#[cfg(test)]
mod loads;
#[cfg(test)]
mod pages;
#[cfg(test)]
mod plays;
#[cfg(test)]
mod refusals;
#[cfg(test)]
mod reporters;
#[cfg(test)]
mod second;
#[cfg(test)]
mod supervisors;
