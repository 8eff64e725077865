//! Tests of the public functions of expressions. No crate uses this one.
#![tactic(auto)]

#[cfg(test)]
mod binding;
#[cfg(test)]
mod cases;
#[cfg(test)]
mod values;
