use crate::{ColumnDef, Expr, KeyRule, Select};
use hc_value::Str;
use sqlite_items::Items;

/// A statement as it is written. Names keep their letters and lose their quotes.
#[derive(Debug, Drop)]
pub enum Stmt {
    /// A query.
    Select(Select),
    /// Rows for a table, with the columns' names where they are written.
    Insert {
        table: Str,
        columns: Option<Items<Str>>,
        rows: Items<ExprRow>,
    },
    /// New values for the rows of a table that the condition keeps.
    Update {
        table: Str,
        sets: Items<Assign>,
        filter: Option<Expr>,
    },
    /// Clears the rows of a table that the condition keeps.
    Delete {
        table: Str,
        filter: Option<Expr>,
    },
    /// A new table. `maybe` says that `IF NOT EXISTS` is written.
    CreateTable {
        maybe: bool,
        name: Str,
        columns: Items<ColumnDef>,
        rules: Items<KeyRule>,
    },
    /// A new index. `maybe` says that `IF NOT EXISTS` is written.
    CreateIndex {
        unique: bool,
        maybe: bool,
        name: Str,
        table: Str,
        columns: Items<Str>,
    },
    /// `maybe` says that `IF EXISTS` is written.
    DropTable {
        maybe: bool,
        name: Str,
    },
    /// `maybe` says that `IF EXISTS` is written.
    DropIndex {
        maybe: bool,
        name: Str,
    },
    /// `BEGIN`
    Begin,
    /// `COMMIT` or `END`
    Commit,
    /// `ROLLBACK`
    Rollback,
    /// `ROLLBACK TO` a savepoint.
    RollbackTo(Str),
    /// `SAVEPOINT`
    Savepoint(Str),
    /// `RELEASE`
    Release(Str),
}

/// A row of `VALUES`.
#[derive(Debug, Drop)]
pub struct ExprRow {
    /// One expression at least.
    pub values: Items<Expr>,
}

/// A column and its new value.
#[derive(Debug, Drop)]
pub struct Assign {
    /// The column's name.
    pub column: Str,
    /// What it is set to.
    pub value: Expr,
}
