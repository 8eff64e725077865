// The cells of all keys after the first entries of the log, from which a read goes on.
ghost use Rattle.std.specs.Prelude.{◌≡◌, ◌≤◌, [], length, IfOk};
ghost use Rattle.hc_core.specs.Base.{AreCellsFrom, IsBased};

use crate::cell_map::CellMap;
use crate::commit::Commit;
use crate::reading::cells_over;
use crate::{Cell, NoMemory};
use hc_range::Range;
use std::alloc::Global;

/// The cells of all keys after the first entries of the log, and how many entries these are.
#[derive(Drop)]
pub struct Base {
    pub cells: CellMap,
    pub count: usize,
}

impl Base {
    /// What is before all entries.
    pub fn new(alloc: Global) -> Base
        ensures { (result.cells ≡ []) × (result.count ≡ 0) }
    {
        Base {
            cells: CellMap::new(alloc),
            count: 0,
        }
    }

    /// Goes on to the first entries of the log, as many as are told. Out of memory it begins anew, and so does what comes
    /// then.
    pub fn go_on(&mut self, alloc: Global, log: &[Commit], upto: usize)
        requires upto { upto ≤ length log.now }
        requires based { IsBased self.old log.now }
        ensures { IsBased self.new log.now }
    {
        while self.count < upto {
            if let Err(_no_memory) = self.cells.set_all(alloc, log[self.count].writes.as_slice()) {
                self.begin_anew();
                return;
            }
            self.count += 1;
        }
    }

    fn begin_anew(&mut self)
        ensures { (self.new.cells ≡ []) × (self.new.count ≡ 0) }
    {
        self.cells.clear();
        self.count = 0;
    }

    /// The cells of a range after the first entries of the log. Where they are fewer than those of the base, each of them is
    /// looked at.
    pub fn cells_at(
        &self,
        alloc: Global,
        log: &[Commit],
        snapshot: usize,
        range: &Range,
    ) -> Result<Vec<Cell>, NoMemory>
        requires snapshot { snapshot ≤ length log.now }
        requires based { IsBased self.now log.now }
        ensures { IfOk result (λ cells. AreCellsFrom range.now log.now snapshot cells.items) }
    {
        if snapshot < self.count {
            return cells_over(alloc, Vec::new(alloc), &log[..snapshot], range);
        }
        let cells = self.cells.cells_in(alloc, range)?;
        cells_over(alloc, cells, &log[self.count..snapshot], range)
    }
}
