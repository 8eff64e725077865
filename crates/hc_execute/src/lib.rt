//! Statements of the one table, run by a transaction over any desk.
//!
//! `specs/Running.antt` says of any language what it is to run a statement so: for every database that may be the
//! transaction's snapshot. `execute` does it for the language of the one table.
#![tactic(auto)]

mod statement;

pub use statement::execute;
