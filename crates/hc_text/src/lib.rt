//! What several crates need of bytes and letters: the owned byte string, hexadecimal digits, quotes, names that
//! differ in the case of their letters alone, and texts read byte by byte.
//!
//! A contract sees a `Bytes` as the list of its bytes. A call that takes memory is given the allocator first and
//! answers `NoMemory` where an allocation is refused.
#![tactic(auto)]

mod bytes;
mod digits;
pub mod laws;
mod names;
mod utf8;

pub use bytes::Bytes;
pub use digits::{byte_digits, hex_digit, hex_value, upper_hex_value};
pub use names::is_same_name;
pub use utf8::{Expected, next_expected};

/// An allocation was refused. It has no further cause.
pub type NoMemory = std::alloc::AllocError;
