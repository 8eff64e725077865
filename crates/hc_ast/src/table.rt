use hc_value::{Class, Str};
use sqlite_items::Items;

/// A column of a new table.
#[derive(Debug, Drop)]
pub struct ColumnDef {
    /// Its name.
    pub name: Str,
    /// The class of its values: `Int`, `Text` or `Blob`.
    pub class: Class,
    /// Its rules, as they are written, also where one is written twice.
    pub rules: Items<ColumnRule>,
}

/// A rule on one column.
#[derive(Clone, Copy, Debug, PartialEq, Eq)]
pub enum ColumnRule {
    /// `PRIMARY KEY`
    PrimaryKey,
    /// `NOT NULL`
    NotNull,
    /// `UNIQUE`
    Unique,
}

/// A rule that follows the columns: `PRIMARY KEY (..)` or `UNIQUE (..)`.
#[derive(Debug, Drop)]
pub struct KeyRule {
    /// Whether it is the primary key.
    pub primary: bool,
    /// The names of its columns, one at least.
    pub columns: Items<Str>,
}
