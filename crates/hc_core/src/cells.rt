// What keys have, and what a transaction puts there.
use hc_range::Bytes;
use sqlite_items::Items;

/// A key with its record.
#[derive(Debug, Drop)]
pub struct Cell {
    pub key: Bytes,
    pub rec: Bytes,
}

/// What was read of a part of the keys: its cells in ascending order of keys.
#[derive(Debug, Drop)]
pub struct Part {
    pub cells: Items<Cell>,
}

/// A key with what a transaction puts there: a record, or a tombstone, which takes the key's record
/// away.
#[derive(Debug, Drop)]
pub struct Write {
    pub key: Bytes,
    pub rec: Option<Bytes>,
}
