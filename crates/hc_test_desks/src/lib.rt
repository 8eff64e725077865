//! What tests and timings of desks share: the phases of a transaction over any desk, and a guard that makes those calls of
//! a desk that may be made. No crate of the program uses it.
#![tactic(auto)]

mod call;
mod guard;
mod meddled;
mod phases;
mod turns;

pub use call::{Call, make_call, make_cut_call};
pub use guard::{Answer, Guard};
pub use meddled::{MeddledDesk, Turn};
pub use phases::{commit, may_be_reserved, open, put_all, read};
pub use turns::{new_guards, take_turn};
