//! Pages: 256 words that stand for one content.
//!
//! Every call but `byte` and the writer's speaks of contents alone (`hc_base`, `specs/Content.antt`); where the words of a
//! content are is the matter of its layout.
#![tactic(auto)]

mod bytes;
mod compare;
mod entry_at;
mod fences;
pub mod laws;
mod reading;
mod rewrite;
mod room;
mod search;
mod sought;
mod told;
mod told_of_page;
mod validity;
mod writer;

pub use bytes::byte;
pub use entry_at::{EntryAt, child, entry};
pub use fences::{high, low, right};
pub use rewrite::{with_copied, with_put, without};
pub use room::{fits, fits_copied};
pub use search::{Found, find, find_sought};
pub use sought::Sought;
pub use told_of_page::{count, level};
pub use validity::valid;
pub use writer::{Draft, Head, NewEntry, begin, finish, push_child, push_copied, push_version};
