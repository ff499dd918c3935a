//! Tests of scripts: which texts are refused, where and why, and which plans the others give.
#![tactic(auto)]

#[cfg(test)]
mod again;
#[cfg(test)]
mod limits;
#[cfg(test)]
mod loads;
#[cfg(test)]
mod notes;
#[cfg(test)]
mod plans;
#[cfg(test)]
mod refusals;
#[cfg(test)]
mod texts;
