//! What a statement answers, what it changes and what it reads, over databases as plain data.
//!
//! `specs/Statements` is `run` and `reads`; each kind of statement has a file of its own. No code of this crate runs: `laws` has
//! empty functions, whose contracts are the laws.
#![tactic(auto)]

pub mod change_laws;
pub mod laws;
pub mod path_laws;
pub mod result_laws;
