//! Tests of the public functions of the transaction machine. Nothing stands on this crate.
#![tactic(auto)]

#[cfg(test)]
mod desks;
#[cfg(test)]
mod list_desk;
#[cfg(test)]
mod machine;
#[cfg(test)]
mod random;
