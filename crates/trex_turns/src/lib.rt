//! Tests of schedules, merges and turns, over the public calls of the crates that have them: a file a crate, and for the schedule three.
#![tactic(auto)]

#[cfg(test)]
mod claims;
#[cfg(test)]
mod cores;
#[cfg(test)]
mod crew;
#[cfg(test)]
mod merge;
#[cfg(test)]
mod sched;
#[cfg(test)]
mod strides;
#[cfg(test)]
mod walks;
