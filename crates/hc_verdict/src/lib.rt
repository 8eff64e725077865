//! More of the judge of runs: the history that commit numbers give, and the order of all numbers. They look into no
//! statement, so they hold of any language.
//!
//! `laws` states that the connection and the ordinal there tell a transaction, which the history rests on.
#![tactic(auto)]

mod history;
pub mod laws;
mod named;
mod order;

pub use history::{Entry, find_history};
pub use named::find_named;
pub use order::is_in_order;
