//! Byte strings and their order, ranges of them, and the log of what a transaction has read.
//!
//! A contract sees a `Bytes` and a `KeyBuf` as the list of its bytes, and a `ReadLog` as the list of its
//! ranges, which is the one normal form of the set of keys that it covers. A call that takes memory is
//! given the allocator first, or works on an object that keeps one, and answers `NoMemory` where an
//! allocation is refused.
#![tactic(auto)]

pub mod examples;
mod key;
pub mod laws;
mod log;
mod order;
mod prepared;
mod range;
mod search;
mod union;

pub use hc_text::{Bytes, NoMemory};
pub use key::{KeyBuf, LONGEST_KEY};
pub use log::ReadLog;
pub use order::is_below;
pub use prepared::Prepared;
pub use range::{Range, contains, meets};
