use hc_ast::Stmt;
use hc_transcript::Refusal;
use hc_value::Str;

/// What a statement of a script asks for, by what it does to a transaction.
#[derive(Debug, Drop)]
pub enum Command {
    /// A query, or a change of rows, of tables or of indexes. Such a statement touches the database.
    Run(Stmt),
    /// `BEGIN`
    Begin,
    /// `COMMIT`
    Commit,
    /// `ROLLBACK`
    Rollback,
    /// `SAVEPOINT` with its name.
    Savepoint(Str),
    /// `RELEASE` of the savepoint with this name.
    Release(Str),
    /// `ROLLBACK TO` the savepoint with this name.
    RollbackTo(Str),
    /// It is no statement: its lexical error, or its fault of parsing.
    Fault(Refusal),
}
