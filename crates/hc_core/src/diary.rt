// A connection's account, which contracts see and the program does not keep.
ghost use Rattle.std.specs.Prelude.{◌≡◌, ◌<◌, List, [], ◌∷◌, IfOk};
ghost use Rattle.hc_core.specs.Diary.{noted, entry_of};
ghost use Rattle.std.specs.Option.{option_copied};
ghost use Rattle.hc_core.specs.Said.{entry_said, met_said};
ghost use Rattle.hc_core.specs.declared.account.Entry.TheVariants.{Reserved};
ghost use Rattle.hc_core.specs.declared.account.Entry.{Entry};
ghost use Rattle.hc_core.specs.declared.event.Event.TheVariants.{Begin, Read};
ghost use Rattle.hc_core.specs.declared.outcome.Outcome.TheVariants.{Cells, NotNow};

use crate::said::Said;
use crate::{Account, Cell, Met, NoMemory, Write};
use atomic_table::{Play, Seat, Shared, Table, TableRule};
use hc_range::Range;
use std::alloc::Global;
use std::marker::{Brand, Model, PhantomData};

// The rule of a diary's table lets every entry in: what accounts say is the machine's own invariant.
struct Free;

impl TableRule<(), Account, ()> for Free {
    ghost use Rattle.std.specs.Prelude.{[]};
    ghost use Rattle.hc_core.specs.declared.account.Account.{Account};

    ghost holds = { λ _ _. Unit {0} };

    ghost first = { λ _. record { entries = [] } };
}

// The entry that a step adds. `note` picks it from its arguments at its call of `note_as`, so what is in the
// impl for `Brand` never counts.
trait Noting {
    ghost entry: { Entry };
}

impl Noting for Brand {
    ghost entry = { entry_of (Begin 0) NotNow };
}

struct Notes<N> {
    noting: PhantomData<N>,
}

impl<N: Noting> Play<(), Account> for Notes<N> {
    ghost then = { λ step before found after. after ≡ (noted before.0 N.entry, []) };
}

/// A connection's account. Contracts see the list of its entries, the newest first. It is kept nowhere:
/// it is the view of a seat at a table of one word, and an entry costs one load of the word.
#[derive(Drop)]
pub struct Diary {
    table: Table<(), Account, (), Free, Global>,
    seat: Seat<(), Account>,
}

impl Model for Diary {
    ghost use Rattle.std.specs.Prelude.{◌≡◌, ◌<◌, List, []};
    ghost use Rattle.hc_core.specs.declared.account.Entry.{Entry};

    ghost Value = { List Entry };

    ghost view = { λ diary. diary.seat.me.0.entries };

    ghost invariant = { λ diary. (diary.seat.table_id ≡ diary.table.shared.table_id) × (0 < diary.table.shared.table_id.words) × (diary.seat.me.1 ≡ []) };
}

impl Diary {
    /// An empty account.
    pub fn new(alloc: Global) -> Result<Diary, NoMemory>
        ensures { IfOk result (λ diary. diary ≡ []) }
    {
        let (table, seat) = Table::of_words(alloc, &[0], &())?;
        Ok(Diary { table, seat })
    }

    // One load, by which the seat's view gets the entry. Nothing is kept: the arguments are there for the choice of the
    // entry, and so is there a function for each kind of arguments.
    fn note_as<N: Noting>(&mut self, _said: Said, _key: &[u8], _rec: Option<&[u8]>)
        ensures { self.new ≡ N.entry ∷ self.old }
    {
        let table = &self.table;
        table.shared.load::<Notes<N>>(&mut self.seat, 0);
    }

    fn note_met_as<N: Noting>(&mut self, _said: Said, _key: &[u8], _rec: Option<&[u8]>, _met: &Met)
        ensures { self.new ≡ N.entry ∷ self.old }
    {
        let table = &self.table;
        table.shared.load::<Notes<N>>(&mut self.seat, 0);
    }

    fn note_read_as<N: Noting>(&mut self, _conn: u32, _range: &Range, _cells: &[Cell])
        ensures { self.new ≡ N.entry ∷ self.old }
    {
        let table = &self.table;
        table.shared.load::<Notes<N>>(&mut self.seat, 0);
    }

    fn note_room_as<N: Noting>(&mut self, _conn: u32, _writes: &[Write])
        ensures { self.new ≡ N.entry ∷ self.old }
    {
        let table = &self.table;
        table.shared.load::<Notes<N>>(&mut self.seat, 0);
    }

    /// Adds an entry with a key and a record, or with the ends of a part. No call of these takes memory.
    pub fn note(&mut self, said: Said, key: &[u8], rec: Option<&[u8]>)
        ensures { self.new ≡ entry_said said key.now (option_copied rec.entry) ∷ self.old }
    {
        self.note_as::<Brand>(said, key, rec);
    }

    /// Adds a put or a check that was refused.
    pub fn note_met(&mut self, said: Said, key: &[u8], rec: Option<&[u8]>, met: &Met)
        ensures { self.new ≡ met_said said key.now (option_copied rec.entry) met.now ∷ self.old }
    {
        self.note_met_as::<Brand>(said, key, rec, met);
    }

    /// Adds a read of a range, with its cells.
    pub fn note_read(&mut self, conn: u32, range: &Range, cells: &[Cell])
        ensures { self.new ≡ entry_of (Read conn range.now.lo range.now.hi) (Cells (record { cells = cells.now })) ∷ self.old }
    {
        self.note_read_as::<Brand>(conn, range, cells);
    }

    /// Adds the writes for which room was made.
    pub fn note_room(&mut self, conn: u32, writes: &[Write])
        ensures { self.new ≡ Reserved conn writes.now ∷ self.old }
    {
        self.note_room_as::<Brand>(conn, writes);
    }
}
