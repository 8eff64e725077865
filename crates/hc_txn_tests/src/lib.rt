//! Tests of the public functions of `hc_txn` and `hc_commit`.
#![tactic(auto)]

#[cfg(test)]
mod example;
#[cfg(test)]
mod histories;
#[cfg(test)]
mod lane;
#[cfg(test)]
mod meddled;
#[cfg(test)]
mod random;
#[cfg(test)]
mod room;
