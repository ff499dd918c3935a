//! Tests of the tally of fates: the notes of small runs, a few reads left out, and how many errors have each fate after
//! them. The numbers are those that `checks/board_model.py` gives for scripts of these runs.
#![tactic(auto)]

#[cfg(test)]
mod runs;
