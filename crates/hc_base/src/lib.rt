//! The numbers that every layer of the engine counts by, the words of its table, and what can run out.
//!
//! Each number is a type of its own, so that none is passed for another. Each word of the table is an enum, with
//! `pack` and `unpack`.
#![tactic(auto)]

mod entry;
mod full;
pub mod laws;
mod map_word;
mod numbers;
mod page;
mod page_word;
mod parts;
mod seat_word;
mod tid_word;

pub use entry::entry_fits;
pub use full::Full;
pub use map_word::MapWord;
pub use numbers::{Cid, Logical, Phys, Tid};
pub use page::{Older, PAGE_WORDS, Page};
pub use page_word::PageWord;
pub use seat_word::SeatWord;
pub use tid_word::TidWord;
