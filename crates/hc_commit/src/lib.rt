//! How a transaction ends at its desk: by a commit, or by a rollback.
#![tactic(auto)]

mod committing;
mod ending;
mod proposal;
mod puts;

pub use committing::{CommitFault, commit};
pub use ending::rollback;
pub use proposal::Proposal;
