//! Tests of the public functions of the printer and the reader of replies. No crate uses this one.
#![tactic(auto)]

#[cfg(test)]
mod again;
#[cfg(test)]
mod faults;
#[cfg(test)]
mod outputs;
#[cfg(test)]
mod printed;
#[cfg(test)]
mod read;
