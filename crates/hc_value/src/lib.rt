//! The values of SQL with their classes and their order, and owned texts.
//!
//! `class` tells a value's class, `copy` makes a value of its own that is the same, and `cmp` puts two
//! values in the order of SQL. That order is total, and takes two values for equal exactly where they are
//! the same.
//!
//! A contract sees a `Str` or a `Blob` as the list of its bytes, so two of them with the same bytes are
//! equal, whatever room they have reserved. A call that takes memory is given the allocator first and
//! answers `NoMemory` where an allocation is refused.
#![tactic(auto)]

pub mod laws;
mod order;
mod storage;
mod text;
mod value;

pub use hc_text::{Bytes as Blob, Expected, NoMemory, next_expected};
pub use order::cmp;
pub use storage::Class;
pub use text::Str;
pub use value::{Value, class, copy};
