use crate::{Event, Outcome, Write};
use hc_base::Full;
use std::collections::LinkedList;

/// One entry of an account. An event is the machine's; the two others are notes that no event reads.
#[derive(Debug, Drop)]
pub enum Entry {
    /// An event of the connection, and what it was answered.
    Answered {
        event: Event,
        outcome: Outcome,
    },
    /// The writes for which room was made by the call that drew the transaction's id.
    Reserved {
        conn: u32,
        writes: LinkedList<Write>,
    },
    /// What that call found to have run out.
    FoundFull {
        conn: u32,
        full: Full,
    },
}

/// What happened to one connection: its events with their answers, and its notes, the newest first. Contracts alone
/// see an account, and no code makes one.
#[derive(Debug, Drop)]
pub struct Account {
    pub entries: LinkedList<Entry>,
}
