//! Tests of the public functions of what reads, writes and judges a run, and of the call that does the
//! program's work. No crate uses this one.
#![tactic(auto)]

#[cfg(test)]
mod io;
#[cfg(test)]
mod meaning;
#[cfg(test)]
mod top;
