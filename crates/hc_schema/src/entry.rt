// Cells before they are written.
ghost use Rattle.std.specs.Prelude.{◌≡◌, ◌↔◌, IsTrue, map, IfOk};
ghost use Rattle.std.specs.List.{AllByRecursion};
ghost use Rattle.hc_schema.specs.Cells.{cell_of, entry_len, IsShort};

use hc_core::Cell;
use hc_key::{key_len, key_of};
use hc_record::{encode, encoding_len, fits};
use hc_value::{NoMemory, Value};
use sqlite_items::Items;
use std::alloc::Global;

/// A cell before it is written: its tree, the values of its key and the values of its record.
#[derive(Debug, Drop)]
pub struct Entry {
    pub tree: u32,
    pub key: Items<Value>,
    pub values: Items<Value>,
}

/// Whether each record is short enough to be read: below 2^32 bytes.
pub fn are_short(entries: &[Entry]) -> bool
    ensures { IsTrue result ↔ AllByRecursion IsShort entries.now }
{
    entries.iter().all(|entry| fits(entry.values.as_slice()))
}

/// How many bytes key and record of each entry have together. Neither is made.
pub fn entry_lens(alloc: Global, entries: &[Entry]) -> Result<Items<u64>, NoMemory>
    ensures { IfOk result (λ lens. lens ≡ map entry_len entries.now) }
{
    let mut lens = Items::new(alloc);
    for entry in entries {
        lens.push(entry_len(entry))?;
    }
    Ok(lens)
}

fn entry_len(entry: &Entry) -> u64
    ensures { result ≡ entry_len entry.now }
{
    key_len(entry.key.as_slice()).saturating_add(encoding_len(entry.values.as_slice()))
}

/// The cell of an entry.
pub fn write(alloc: Global, entry: &Entry) -> Result<Cell, NoMemory>
    requires { IsShort entry.now }
    ensures { IfOk result (λ cell. cell ≡ cell_of entry.now) }
{
    let key = key_of(alloc, entry.tree, entry.key.as_slice())?;
    let rec = encode(alloc, entry.values.as_slice())?;
    Ok(Cell { key, rec })
}

/// The cells of entries.
pub fn write_all(alloc: Global, entries: &[Entry]) -> Result<Items<Cell>, NoMemory>
    requires { AllByRecursion IsShort entries.now }
    ensures { IfOk result (λ cells. cells ≡ map cell_of entries.now) }
{
    let mut cells = Items::new(alloc);
    for entry in entries {
        cells.push(write(alloc, entry)?)?;
    }
    Ok(cells)
}
