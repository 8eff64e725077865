//! What tests and timings of the region share: transactions that read and put nothing, step by step and as a whole. No crate
//! of the program uses it.
#![tactic(auto)]

mod lane;
mod lone;
mod whole;

pub use lane::Lane;
pub use lone::Lone;
pub use whole::Whole;
