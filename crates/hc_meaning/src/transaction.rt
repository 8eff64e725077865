use crate::{Answer, Statement};
use hc_transcript::Ending;
use sqlite_items::Items;

/// The statements of one connection.
#[derive(Debug, Drop)]
pub struct Script {
    /// The connection's number. The setup script is connection 0.
    pub conn: u32,
    /// In the order in which they run.
    pub statements: Items<Statement>,
}

/// A transaction, named by its connection and its place among that connection's transactions.
#[derive(Debug, Drop)]
pub struct Transaction {
    /// The number of its connection.
    pub conn: u32,
    /// Its place among the transactions of its connection, counted from 1.
    pub ordinal: u32,
    /// Its statements, in order.
    pub statements: Items<Statement>,
    /// What each of its statements answered.
    pub answers: Items<Answer>,
    /// The ending that its last reply printed.
    pub ending: Ending,
}
