//! The atomic steps on the engine's table. Each keeps the rule of `hc_rule`.
#![tactic(auto)]

mod first;
mod grip;
mod hints;
mod log_words;
mod notes;
mod page_words;
mod region;
mod row_words;
mod seat_words;
mod tid_words;

pub use grip::Grip;
pub use notes::Note;
pub use region::{Dealer, Region};
