//! The grammar of SQL as a value, and what holds of it.
//!
//! `specs/Expressions`, `specs/Queries` and `specs/Statements` are the grammar. `specs/Has` says what it has, and
//! `specs/Runs` what a reader of it computes within the limits. No code of this crate runs: `laws` has empty functions,
//! whose contracts are the laws.
#![tactic(auto)]

pub mod laws;
