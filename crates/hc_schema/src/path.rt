/// How the rows of a table are reached.
#[derive(Clone, Copy, Debug, PartialEq, Eq)]
pub enum Path {
    /// By the one rowid that the conjunct says.
    Rowid {
        /// The place of the conjunct, from 0.
        conjunct: u32,
    },
    /// By the entries of an index whose first column has the value that the conjunct says.
    ByIndex {
        /// The place of the index in the table, from 0.
        index: u32,
        /// The place of the conjunct, from 0.
        conjunct: u32,
    },
    /// All rows.
    Whole,
}
