// Which statements there are.
ghost use Rattle.std.specs.Prelude.{◌≡◌};
ghost use Rattle.hc_ast.specs.Kinds.{statement_kind};

use crate::Stmt;

/// A transaction command, or one of the six kinds of statements that a transaction runs.
#[derive(Clone, Copy, Debug, PartialEq, Eq)]
pub enum StatementKind {
    /// `BEGIN`, `COMMIT`, `ROLLBACK`, `SAVEPOINT` or `RELEASE`
    Transaction,
    /// `SELECT`
    Select,
    /// `INSERT`
    Insert,
    /// `UPDATE`
    Update,
    /// `DELETE`
    Delete,
    /// `CREATE`
    Create,
    /// `DROP`
    Drop,
}

/// What kind of statement it is.
pub fn statement_kind(statement: &Stmt) -> StatementKind
    ensures { result ≡ statement_kind statement.now }
{
    match statement {
        Stmt::Select(_) => StatementKind::Select,
        Stmt::Insert { .. } => StatementKind::Insert,
        Stmt::Update { .. } => StatementKind::Update,
        Stmt::Delete { .. } => StatementKind::Delete,
        Stmt::CreateTable { .. } | Stmt::CreateIndex { .. } => StatementKind::Create,
        Stmt::DropTable { .. } | Stmt::DropIndex { .. } => StatementKind::Drop,
        Stmt::Begin
        | Stmt::Commit
        | Stmt::Rollback
        | Stmt::RollbackTo(_)
        | Stmt::Savepoint(_)
        | Stmt::Release(_) => StatementKind::Transaction,
    }
}
