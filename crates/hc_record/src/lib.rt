//! The bytes of a list of values, after SQLite's record format, and how they are read again.
//!
//! `specs/Record.antt` is the grammar: the encoding of a list of values. `encode` writes exactly that,
//! and `decode` answers exactly the list whose encoding the bytes are. `specs/Reading.antt` says which
//! fault other bytes have.
#![tactic(auto)]

mod decoding;
mod encoding;
mod fault;
pub mod laws;
mod length;
mod place;
mod reader;
mod serial;
mod varint;

pub use decoding::decode;
pub use encoding::encode;
pub use fault::{RecordFault, RecordKind};
pub use length::{encoding_len, fits};
pub use place::integer_at;
