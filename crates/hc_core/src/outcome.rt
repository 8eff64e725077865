use crate::Part;
use hc_base::{Cid, Tid};
use hc_range::KeyBuf;
use thiserror::Error;

/// A transaction of another connection that put a key which this one puts or checks.
#[derive(Debug, Clone, Copy, PartialEq, Eq, Error)]
#[error("transaction {ord} of connection {conn} put the key")]
pub struct Met {
    /// The other's id.
    pub tid: Tid,
    /// The other's connection.
    pub conn: u32,
    /// The other's ordinal in its connection.
    pub ord: u32,
    /// The key.
    pub key: KeyBuf,
}

/// The commit number that this transaction had proposed, and that another one took.
#[derive(Debug, Clone, Copy, PartialEq, Eq, Error)]
#[error("commit number {} was taken by the transaction with id {}", .cid.0, .other.0)]
pub struct Lost {
    /// The number.
    pub cid: Cid,
    /// The other's id.
    pub other: Tid,
}

/// What an event is answered.
#[derive(Debug, Drop)]
pub enum Outcome {
    /// It is done.
    Done,
    /// The snapshot: how many transactions had committed.
    Began(Cid),
    /// The id that was drawn.
    Drew(Tid),
    /// The cells of the part that was read.
    Cells(Part),
    /// Another transaction is in the way.
    Met(Met),
    /// The commit number that is proposed.
    Proposed(Cid),
    /// Another transaction took the proposed number.
    Lost(Lost),
    /// The commit number that the transaction has now.
    Decided(Cid),
    /// The event is not enabled, and nothing has changed.
    NotNow,
}
