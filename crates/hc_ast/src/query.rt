use crate::Expr;
use hc_value::Str;
use sqlite_items::{Boxed, Items};

/// A query.
#[derive(Debug, Drop)]
pub struct Select {
    /// Whether `DISTINCT` is written.
    pub distinct: bool,
    /// What is asked for, one at least.
    pub items: Items<Item>,
    /// The tables of `FROM`, at most 8, or none without `FROM`.
    pub tables: Items<FromTable>,
    /// The condition of `WHERE`.
    pub filter: Option<Expr>,
    /// The expressions of `GROUP BY`, or none.
    pub groups: Items<Expr>,
    /// The condition of `HAVING`, which wants `GROUP BY`.
    pub having: Option<Expr>,
    /// The terms of `ORDER BY`, or none.
    pub order: Items<Term>,
    /// The number of `LIMIT`.
    pub limit: Option<i64>,
    /// The number of `OFFSET`, which wants `LIMIT`.
    pub offset: Option<i64>,
}

/// One thing that a query asks for.
#[derive(Debug, Drop)]
pub enum Item {
    /// `*`, which wants `FROM`.
    All,
    /// `name.*`, which wants `FROM`.
    AllOf(Str),
    /// An expression, with its alias where it has one.
    One {
        value: Expr,
        alias: Option<Boxed<Str>>,
    },
}

/// A table of `FROM`.
#[derive(Debug, Drop)]
pub struct FromTable {
    /// The table's name.
    pub name: Str,
    /// Its alias, where it has one.
    pub alias: Option<Boxed<Str>>,
    /// Whether `JOIN`, and no comma, is before it. False for the first.
    pub joined: bool,
    /// The condition of `ON`, which wants `JOIN`.
    pub on: Option<Expr>,
}

/// A term of `ORDER BY`.
#[derive(Debug, Drop)]
pub struct Term {
    /// What is ordered by. An integer that is the whole term is the number of an item.
    pub value: Expr,
    /// Whether the order is turned round.
    pub desc: bool,
}
