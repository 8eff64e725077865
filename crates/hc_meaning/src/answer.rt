use hc_transcript::{Line, Row};
use sqlite_items::Items;

/// The rows `(id, v)` of the table, in ascending order of `id`.
pub type Db = Items<(i64, i64)>;

/// A reply without its ending: what a statement answers, wherever transactions end.
#[derive(Debug, Drop)]
pub struct Answer {
    /// The rows that a query gave, in order.
    pub rows: Items<Row>,
    /// How the statement went.
    pub last: Line,
}

/// What one statement answers, and the database after it.
#[derive(Debug, Drop)]
pub struct Outcome {
    pub answer: Answer,
    /// The database after the statement.
    pub db: Db,
}

/// What a list of statements answers, and the database after them.
#[derive(Debug, Drop)]
pub struct Ran {
    /// One for each statement, in order.
    pub answers: Items<Answer>,
    /// The database after the last statement.
    pub db: Db,
}
