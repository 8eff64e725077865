//! The end of the commit log, and transactions that begin, draw an id, propose and win there.
#![tactic(auto)]

mod ends;
mod ids;
pub mod laws;
mod states;

pub use ends::{begin, find_end, log_end, propose};
pub use ids::draw_id;
pub use states::{set_state, state_of, win};
