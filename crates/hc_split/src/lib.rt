//! Plans: pages that have no room for one entry more are written anew as two, and an inner page gets one child more.
//!
//! Each call reads one page and writes others, whatever those held. What it makes of contents is a relation of `hc_shape`
//! (`specs/Plans.antt`). No call takes memory.
#![tactic(auto)]

mod cut;
mod grow;
mod halves;
mod heads;
mod inner;
mod joined;
mod leaf;
mod reading;

pub use grow::grow_root;
pub use inner::{halve_inner, post};
pub use leaf::halve;
