//! Where input comes from and where output goes, as two traits with what a caller may rest on.
//!
//! A source may tell contracts which bytes it has left, and a sink which bytes were written.
//! Each has a count of faults that never falls, and fails only where the count rose or is at the
//! greatest u64: so a program over them cannot claim a failure that did not happen. `MemSource` and
//! `MemSink` tell everything and fail at the calls that a test lists, a sink also where its room is gone;
//! `SureSource` never fails. `StdSource` and `StdSink` are over the real streams and tell no
//! bytes: what a file or a terminal carries is not proved.
#![tactic(auto)]

mod counted;
mod listed;
mod memory_sink;
mod memory_source;
mod sink;
mod source;
mod standard;

pub use memory_sink::MemSink;
pub use memory_source::{MemSource, SureSource};
pub use sink::Sink;
pub use source::{Failed, Source};
pub use standard::{StdSink, StdSource};
