//! Tests of sources and sinks, and of words, numbers and lines.
#![tactic(auto)]

#[cfg(test)]
mod streams;
#[cfg(test)]
mod texts;
