use hc_value::{Class, Str};
use sqlite_items::Items;

/// A table. Columns are counted from 0.
#[derive(Debug, Drop)]
pub struct Table {
    /// Its name, as it was created.
    pub name: Str,
    /// The number of its tree, from 1.
    pub tree: u32,
    /// Its columns, 1 to 255.
    pub columns: Items<Column>,
    /// The column whose value is the rowid, where there is one.
    pub alias: Option<u32>,
    /// Its indexes, in order of creation.
    pub indexes: Items<Index>,
}

/// A column of a table.
#[derive(Debug, Drop)]
pub struct Column {
    /// Its name, as it was created.
    pub name: Str,
    /// The class of its values besides NULL: `Int`, `Text` or `Blob`.
    pub class: Class,
    /// Whether it refuses NULL.
    pub not_null: bool,
}

/// An index of a table.
#[derive(Debug, Drop)]
pub struct Index {
    /// Its name, as it was created.
    pub name: Str,
    /// The number of its tree, above that of the table.
    pub tree: u32,
    /// What made it.
    pub kind: IndexKind,
    /// Its columns in order, one at least.
    pub columns: Items<u32>,
}

/// What made an index.
#[derive(Clone, Copy, Debug, PartialEq, Eq)]
pub enum IndexKind {
    /// `CREATE INDEX`
    Plain,
    /// `CREATE UNIQUE INDEX`
    Unique,
    /// A rule `UNIQUE` of the table.
    UniqueRule,
    /// A primary key that is not the rowid.
    Primary,
}
