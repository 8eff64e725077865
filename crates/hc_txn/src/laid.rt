// Own writes are laid over the cells of a snapshot, in one pass over both.
ghost use Rattle.std.specs.Prelude.{◌≡◌, ◌++◌, [], ◌∷◌, IfOk, OnOk};
ghost use Rattle.hc_txn.specs.Laid.{cell_of, cells_below, cells_from, cells_past, front_at, front_below, laid, HasMovedFront};

use hc_core::{Cell, Part, Write};
use hc_range::{NoMemory, is_below};
use std::alloc::Global;
use std::collections::VecDeque;

// The cells of a part, to be taken from the front.
fn queue_of(alloc: Global, part: Part) -> Result<VecDeque<Cell>, NoMemory>
    ensures { IfOk result (λ queue. queue.items ≡ part.cells) }
{
    let Part { mut cells } = part;
    let mut queue = VecDeque::new(alloc);
    while let Some(cell) = cells.pop() {
        queue.push_front(cell)?;
    }
    Ok(queue)
}

fn is_front_below(cells: &VecDeque<Cell>, key: &[u8]) -> bool
    ensures { result ≡ front_below key.now cells.now.items }
{
    match cells.front() {
        Some(cell) => is_below(cell.key.as_slice(), key),
        None => false,
    }
}

fn is_front_at(cells: &VecDeque<Cell>, key: &[u8]) -> bool
    ensures { result ≡ front_at key.now cells.now.items }
{
    match cells.front() {
        Some(cell) => cell.key.as_slice() == key,
        None => false,
    }
}

// Moves the first cell to the end of `out`, if there is one.
fn move_front(cells: &mut VecDeque<Cell>, out: &mut Part) -> Result<(), NoMemory>
    ensures { OnOk result (HasMovedFront cells.old.items cells.new.items out.old.cells out.new.cells) }
{
    if let Some(cell) = cells.pop_front() {
        out.cells.push(cell)?;
    }
    Ok(())
}

// Moves the cells below a key.
fn move_below(cells: &mut VecDeque<Cell>, key: &[u8], out: &mut Part) -> Result<(), NoMemory>
    ensures moved { OnOk result (out.new.cells ≡ out.old.cells ++ cells_below key.now cells.old.items) }
    ensures left { OnOk result (cells.new.items ≡ cells_from key.now cells.old.items) }
{
    while is_front_below(cells, key) {
        move_front(cells, out)?;
    }
    Ok(())
}

// Drops the first cell, if it has the key.
fn skip(cells: &mut VecDeque<Cell>, key: &[u8])
    ensures { cells.new.items ≡ cells_past key.now cells.old.items }
{
    if is_front_at(cells, key) {
        cells.pop_front();
    }
}

// Adds what a write puts.
fn add_put(write: Write, out: &mut Part) -> Result<(), NoMemory>
    ensures { OnOk result (out.new.cells ≡ out.old.cells ++ cell_of write) }
{
    let Write { key, rec } = write;
    if let Some(rec) = rec {
        out.cells.push(Cell { key, rec })?;
    }
    Ok(())
}

// Moves all cells.
fn move_all(cells: &mut VecDeque<Cell>, out: &mut Part) -> Result<(), NoMemory>
    ensures { OnOk result (out.new.cells ≡ out.old.cells ++ cells.old.items) }
{
    while !cells.is_empty() {
        move_front(cells, out)?;
    }
    Ok(())
}

/// Adds the cells of a part with writes over them: both are in the order of their keys. Of `out` nothing is said without
/// memory.
pub fn lay_over(
    alloc: Global,
    writes: Vec<Write>,
    part: Part,
    out: &mut Part,
) -> Result<(), NoMemory>
    ensures { OnOk result (out.new.cells ≡ out.old.cells ++ laid writes.items part.cells) }
{
    let mut cells = queue_of(alloc, part)?;
    for write in writes {
        move_below(&mut cells, write.key.as_slice(), out)?;
        skip(&mut cells, write.key.as_slice());
        add_put(write, out)?;
    }
    move_all(&mut cells, out)
}
