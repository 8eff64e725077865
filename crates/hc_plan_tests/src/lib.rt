//! Tests of the paths of tables. No crate uses this one.
#![tactic(auto)]

#[cfg(test)]
mod paths;
