//! Tests of the public functions of the crates of SQL. Nothing stands on this crate.
#![tactic(auto)]

#[cfg(test)]
mod schema;
