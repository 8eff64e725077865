// Cells in an ordered map.
ghost use Rattle.std.specs.Prelude.{◌≡◌, [], None, map, OnOk, IfOk};
ghost use Rattle.hc_core.specs.Base.{cells_within, with_all};
ghost use Rattle.hc_core.specs.Commits.{set_cell};

use crate::{Cell, NoMemory, Write};
use hc_range::{Bytes, Range, is_below};
use std::alloc::Global;
use std::collections::{BTreeMap, btree_map};
use std::marker::Model;
use std::ops::Bound;

/// Cells by their keys. Contracts see them in the order of the keys.
#[derive(Drop)]
pub struct CellMap {
    tree: BTreeMap<Vec<u8>, Bytes>,
}

impl Model for CellMap {
    ghost use Rattle.std.specs.Prelude.{List, map};
    ghost use Rattle.hc_core.specs.declared.cells.Cell.{Cell};

    ghost Value = { List Cell };

    ghost view = { λ cells. map (λ e. record { key = e.0.items; rec = e.1 }) cells.tree.entries };
}

impl CellMap {
    pub fn new(alloc: Global) -> CellMap
        ensures { result ≡ [] }
    {
        CellMap {
            tree: BTreeMap::new(alloc),
        }
    }

    /// Takes all cells out.
    pub fn clear(&mut self)
        ensures { self.new ≡ [] }
    {
        self.tree.clear();
    }

    // Takes a key out, if it is there.
    fn take_out(&mut self, key: &[u8])
        ensures { self.new ≡ set_cell key.now None self.old }
    {
        let _count = self.tree.len();
        self.tree.remove(key);
    }

    /// Puts a record at a key, or takes the key out.
    pub fn set(&mut self, alloc: Global, write: &Write) -> Result<(), NoMemory>
        ensures { OnOk result (self.new ≡ set_cell write.now.key write.now.rec self.old) }
    {
        let key = write.key.as_slice();
        let Some(rec) = &write.rec else {
            self.take_out(key);
            return Ok(());
        };
        let rec = Bytes::from_slice(alloc, rec.as_slice())?;
        self.tree.insert(Vec::from_slice(alloc, key)?, rec)?;
        Ok(())
    }

    /// Sets each of the writes. Out of memory some of them are set.
    pub fn set_all(&mut self, alloc: Global, writes: &[Write]) -> Result<(), NoMemory>
        ensures { OnOk result (self.new ≡ with_all self.old writes.now) }
    {
        for write in writes {
            self.set(alloc, write)?;
        }
        Ok(())
    }

    /// Copies of the cells of a range.
    pub fn cells_in(&self, alloc: Global, range: &Range) -> Result<Vec<Cell>, NoMemory>
        ensures { IfOk result (λ cells. cells.items ≡ cells_within range.now self.now) }
    {
        let lo = Vec::from_slice(alloc, range.lo.as_slice())?;
        let Some(hi) = &range.hi else {
            return copied(
                alloc,
                self.tree.range((Bound::Included(&lo), Bound::Unbounded)),
            );
        };
        if !is_below(range.lo.as_slice(), hi.as_slice()) {
            return Ok(Vec::new(alloc));
        }
        let hi = Vec::from_slice(alloc, hi.as_slice())?;
        copied(
            alloc,
            self.tree
                .range((Bound::Included(&lo), Bound::Excluded(&hi))),
        )
    }
}

fn copied(alloc: Global, cells: btree_map::Range<'_, Vec<u8>, Bytes>) -> Result<Vec<Cell>, NoMemory>
    ensures { IfOk result (λ copies. copies.items ≡ map (λ e. record { key = e.0.items; rec = e.1 }) cells.entry) }
{
    let mut copies = Vec::new(alloc);
    for (key, rec) in cells {
        copies.push(Cell {
            key: Bytes::from_slice(alloc, key.as_slice())?,
            rec: Bytes::from_slice(alloc, rec.as_slice())?,
        })?;
    }
    Ok(copies)
}
