use crate::Table;
use hc_ast::{Bound, Stmt};
use sqlite_items::Items;

/// A statement whose names are resolved. Its tables are borrowed. Columns are counted from 0.
#[derive(Drop)]
pub enum BoundStmt<'a> {
    /// A query.
    Select(BoundSelect<'a>),
    /// New rows; `columns` are those that each row has a value for, in order.
    Insert {
        table: &'a Table,
        columns: Items<u32>,
        rows: Items<BoundRow>,
    },
    /// New values for columns of the rows for which all conjuncts are true.
    Update {
        table: &'a Table,
        sets: Items<BoundSet>,
        conjuncts: Items<Bound>,
    },
    /// The rows for which all conjuncts are true go.
    Delete {
        table: &'a Table,
        conjuncts: Items<Bound>,
    },
    /// Every other statement.
    Other(&'a Stmt),
}

/// The values of a new row.
#[derive(Drop)]
pub struct BoundRow {
    pub values: Items<Bound>,
}

/// A column and its new value.
#[derive(Drop)]
pub struct BoundSet {
    pub column: u32,
    pub value: Bound,
}

/// A query.
///
/// A candidate row has the columns of the tables in FROM's order. In `having`, `items` and `order` of a grouped
/// query a row has the values of `groups` and then those of `aggregates`.
#[derive(Drop)]
pub struct BoundSelect<'a> {
    /// The tables in FROM's order.
    pub tables: Items<&'a Table>,
    /// The operands of the condition's ANDs in order: the ON conditions, and then WHERE.
    pub conjuncts: Items<Bound>,
    /// Whether it has GROUP BY or an aggregate.
    pub grouped: bool,
    pub groups: Items<Bound>,
    pub aggregates: Items<Aggregate>,
    pub having: Option<Bound>,
    pub distinct: bool,
    pub items: Items<Bound>,
    pub order: Items<SortKey>,
    pub limit: Option<i64>,
    pub offset: Option<i64>,
}

/// A key to sort by.
#[derive(Drop)]
pub struct SortKey {
    pub value: Bound,
    pub desc: bool,
}

/// An aggregate over the rows of a group; `of` is `None` for `count(*)` alone.
#[derive(Drop)]
pub struct Aggregate {
    pub kind: AggregateKind,
    pub of: Option<Bound>,
}

/// The functions over a group.
#[derive(Clone, Copy, Debug, PartialEq, Eq)]
pub enum AggregateKind {
    Count,
    Sum,
    Min,
    Max,
}
