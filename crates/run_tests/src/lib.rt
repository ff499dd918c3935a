//! Tests of plays and runs with devices: whose acts they are, when a device is asked and when it is dropped, workers
//! beside one another, and the steps that the lock kept.
#![tactic(auto)]

#[cfg(test)]
mod counted;
#[cfg(test)]
mod gates;
#[cfg(test)]
mod kinds;
#[cfg(test)]
mod outcomes;
#[cfg(test)]
mod plays;
#[cfg(test)]
mod realistic;
#[cfg(test)]
mod runs;
#[cfg(test)]
mod scripts;
