//! Keys whose byte order is the order of what they stand for: the number of a tree and a list of values.
//!
//! `key_of` gives the key of a number and a list. `values_of` answers the number and the list whose key the
//! bytes are, or the place of their fault: the first byte with which no key goes on, or the end of bytes
//! that only begin one. `prefix_range` gives a range that holds, of all keys, exactly those of the tree
//! whose lists begin with the values.
//!
//! Two keys compare as their numbers do and, where these are equal, as their lists do in the order of SQL;
//! keys of different trees or lists are different. `specs/Keys.antt` says which bytes a key has, and
//! `specs/Laws.antt` what holds of all keys. Each call is given the allocator first and may answer
//! `NoMemory`.
#![tactic(auto)]

mod content;
mod fault;
mod key;
pub mod laws;
mod length;
mod reader;
mod reading;
mod value;

pub use fault::KeyFault;
pub use key::{key_of, prefix_range};
pub use length::key_len;
pub use reading::values_of;
