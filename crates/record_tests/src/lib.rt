//! Tests of error records: their fields, logging, banks, status blocks and drains.
#![tactic(auto)]

#[cfg(test)]
mod banks;
#[cfg(test)]
mod blocks;
#[cfg(test)]
mod drains;
#[cfg(test)]
mod fields;
#[cfg(test)]
mod logging;
#[cfg(test)]
mod words;
