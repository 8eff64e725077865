//! Tests of binding. No crate uses this one.
#![tactic(auto)]

#[cfg(test)]
mod binding;
#[cfg(test)]
mod cases;
#[cfg(test)]
mod query_cases;
#[cfg(test)]
mod shown;
