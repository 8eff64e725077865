//! How each table of a statement is reached.
#![tactic(auto)]

pub mod laws;
mod pins;
mod planning;

pub use hc_schema::Path;
pub use planning::path;
