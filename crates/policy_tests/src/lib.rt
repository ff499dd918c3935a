//! Tests of the pages to retire: tables of small lists, edges of pages and thresholds, and as many copies as a run can
//! publish.
#![tactic(auto)]

#[cfg(test)]
mod ledgers;
#[cfg(test)]
mod many;
#[cfg(test)]
mod tables;
