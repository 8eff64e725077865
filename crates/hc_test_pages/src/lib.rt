//! Pages to test and time plans with: leaves of small entries and inner pages between fences, to which entries come one by one.
#![tactic(auto)]

mod plans;
mod shown;
mod small_pages;

pub use plans::{Growth, Halves, can_post, grown, halved, halved_inner, is_full, posted};
pub use shown::{Frame, child_at, has_frame, tid_at};
pub use small_pages::{
    inner_between, is_within, leaf_between, open_leaf, put, rec_len, top, version,
};
