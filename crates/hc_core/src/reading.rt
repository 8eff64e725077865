// The cells of a range after the entries of the log.
ghost use Rattle.std.specs.Prelude.{◌≡◌, ◌≤◌, [], length, IfOk, OnOk};
ghost use Rattle.hc_core.specs.Commits.{cells_of, cells_with, count_below, put_in_at, set_cell, take_out_at};

use crate::commit::Commit;
use crate::log::lies_in;
use crate::{Cell, NoMemory, Write};
use hc_range::{Bytes, Range, is_below};
use std::alloc::Global;

// How many cells at the front have keys below a key.
fn place_for(cells: &[Cell], key: &[u8]) -> usize
    ensures { result ≡ count_below key.now cells.now }
{
    let mut place = 0;
    for cell in cells {
        if !is_below(cell.key.as_slice(), key) {
            return place;
        }
        place += 1;
    }
    place
}

// Takes out the cell at a place, if it is there and has the key.
fn take_out_at(cells: &mut Vec<Cell>, place: usize, key: &[u8])
    requires { place ≤ length cells.old.items }
    ensures { cells.new.items ≡ take_out_at place key.now cells.old.items }
{
    if place < cells.len() && cells[place].key.as_slice() == key {
        cells.remove(place);
    }
}

// Puts in a cell at a place, if there is a record.
fn put_in_at(
    alloc: Global,
    cells: &mut Vec<Cell>,
    place: usize,
    write: &Write,
) -> Result<(), NoMemory>
    requires { place ≤ length cells.old.items }
    ensures { OnOk result (cells.new.items ≡ put_in_at place write.now.key write.now.rec cells.old.items) }
{
    let Some(rec) = &write.rec else {
        return Ok(());
    };
    let key = Bytes::from_slice(alloc, write.key.as_slice())?;
    let rec = Bytes::from_slice(alloc, rec.as_slice())?;
    cells.insert(place, Cell { key, rec })?;
    Ok(())
}

// Sets what a write puts.
fn set_cell(alloc: Global, cells: &mut Vec<Cell>, write: &Write) -> Result<(), NoMemory>
    ensures { OnOk result (cells.new.items ≡ set_cell write.now.key write.now.rec cells.old.items) }
{
    let key = write.key.as_slice();
    let place = place_for(cells.as_slice(), key);
    take_out_at(cells, place, key);
    put_in_at(alloc, cells, place, write)
}

// Sets the writes of an entry that lie in the range.
fn set_cells(
    alloc: Global,
    cells: &mut Vec<Cell>,
    writes: &[Write],
    range: &Range,
) -> Result<(), NoMemory>
    ensures { OnOk result (cells.new.items ≡ cells_with range.now cells.old.items writes.now) }
{
    for write in writes {
        if lies_in(range, write.key.as_slice()) {
            set_cell(alloc, cells, write)?;
        }
    }
    Ok(())
}

/// Cells of a range with what entries of the log put there, in ascending order of keys.
pub fn cells_over(
    alloc: Global,
    mut cells: Vec<Cell>,
    log: &[Commit],
    range: &Range,
) -> Result<Vec<Cell>, NoMemory>
    ensures { IfOk result (λ found. found.items ≡ cells_of range.now cells.items log.now) }
{
    for commit in log {
        set_cells(alloc, &mut cells, commit.writes.as_slice(), range)?;
    }
    Ok(cells)
}
