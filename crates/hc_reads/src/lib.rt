//! The keys that a transaction has read, gathered as they come and put in order when there are many.
//!
//! A contract sees a `Reads` as a list of ranges in no order, of which the keys count. Ranges that are read at scattered
//! places cost a search each, however many there are: they wait in a list, and are sorted and joined with those in order
//! once they are as many as these.
#![tactic(auto)]

mod included;
mod prepared;
mod ranges;
mod reads;

pub use included::includes_all;
pub use prepared::Prepared;
pub use reads::Reads;
