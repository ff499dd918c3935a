//! Tests of the devices: the first act of each, one in its middle and its last, and that nothing comes behind it; and
//! devices that are made of others.
#![tactic(auto)]

#[cfg(test)]
mod acts;
#[cfg(test)]
mod asked;
#[cfg(test)]
mod made_of_others;
#[cfg(test)]
mod pulses;
#[cfg(test)]
mod shelf;
