//! One transaction over any desk: what it has read, its own writes over its snapshot, savepoints and statements.
//!
//! A contract sees a `Txn` as a `Transaction`: its snapshot's number, its log, its own writes with the newest first, the
//! snapshot's records of the keys that it has written, and its savepoints. Each clause of a read says: for every store
//! that agrees with the parts read in the desk's account, the answer is that of the store with the own writes over it.
#![tactic(auto)]

mod copying;
mod kept;
mod laid;
mod lasts;
mod logged;
mod marks;
mod own;
mod reading;
mod txn;

pub use hc_range::NoMemory;
pub use reading::place;
pub use txn::{Net, NoMark, Txn, WriteFault, handed_over};
