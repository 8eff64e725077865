//! Where each word of the engine's table is, and what the words are by what they belong to.
//!
//! No definition or clause above opens a place: what is known of places is that no two words have one, and that each is
//! below the total. So a step on one word leaves all others, which the records of `specs/Changes.antt` say.
#![tactic(auto)]

pub mod laws;
mod layout;

pub use layout::Layout;
