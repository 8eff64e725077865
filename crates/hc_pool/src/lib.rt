//! Hands out the pages of the engine's table, and takes them back.
#![tactic(auto)]

mod claims;
pub mod laws;
mod seats;

pub use claims::{claim, give_back};
pub use seats::{leave, register};
