use crate::Refusal;
use hc_value::Value;
use sqlite_items::Items;

/// One row of a query's result: its values, from the left.
#[derive(Debug, Drop)]
pub struct Row {
    /// From the left, one for each column of the result.
    pub values: Items<Value>,
}

/// The last line of a reply, which tells how its statement went.
#[derive(Debug, Drop)]
pub enum Line {
    /// It was carried out: how many rows it gave or changed.
    Ok(u64),
    /// It was refused, and changed nothing.
    Error(Refusal),
}

/// How a transaction ended. The number counts commits.
#[derive(Clone, Copy, Debug, PartialEq, Eq)]
pub enum Ending {
    /// It was committed as the commit with this number, counted from 1.
    Commit(u32),
    /// It changed nothing, and saw the database after this many commits.
    Snapshot(u32),
    /// It was undone, and had seen the database after this many commits.
    RolledBack(u32),
}

/// The reply to one statement.
#[derive(Debug, Drop)]
pub struct Reply {
    /// The rows that a query gave, in order.
    pub rows: Items<Row>,
    /// How the statement went.
    pub last: Line,
    /// Where a transaction ended with this statement, how.
    pub ending: Option<Ending>,
}

/// A connection's replies, one for each of its statements, in order.
#[derive(Debug, Drop)]
pub struct Transcript {
    /// The connection's number. The setup script is connection 0.
    pub conn: u32,
    /// In the order of the statements.
    pub replies: Items<Reply>,
}
