//! Tests of the public functions of the judge of runs. No crate uses this one.
#![tactic(auto)]

#[cfg(test)]
mod front;
#[cfg(test)]
mod laws;
#[cfg(test)]
mod numbers;
