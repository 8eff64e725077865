// One transaction over any desk.
ghost use Rattle.std.specs.Prelude.{◌≡◌, ◌≢◌, ◌≤◌, List, ℕ, ◌+◌, [], ◌∷◌, None, Some, true, false, length, IfOk, IfErr, OnOk, OnErr, IsOk};
ghost use Rattle.std.specs.Option.{option_copied, unwrap_or};
ghost use Rattle.hc_base.specs.Entries.{entry_fits};
ghost use Rattle.hc_range.specs.Ranges.{InRange};
ghost use Rattle.hc_reads.specs.Gathered.{HaveSameKeys};
ghost use Rattle.hc_core.specs.Account.{HoldsKey, IsIdle, record_of, txns};
ghost use Rattle.hc_core.specs.Diary.{entry_of};
ghost use Rattle.hc_core.specs.Desk.{AreAscendingWrites, EachFits, GoesOn};
ghost use Rattle.hc_core.specs.declared.account.Entry.{Entry};
ghost use Rattle.hc_core.specs.declared.event.Event.TheVariants.{Begin};
ghost use Rattle.hc_core.specs.declared.outcome.Outcome.TheVariants.{Began};
ghost use Rattle.hc_txn.specs.Net.{AreNetWrites};
ghost use Rattle.hc_txn.specs.Lasts.{HasSeenLast, IsLastSeen, part_from};
ghost use Rattle.hc_txn.specs.Laying.{HasSeen};
ghost use Rattle.hc_txn.specs.Marks.{HasReleased, HasUndone, marks_from, started};
ghost use Rattle.hc_txn.specs.Reading.{only};
ghost use Rattle.hc_txn.specs.Stores.{Store, Agrees, AreCellsOf, over};
ghost use Rattle.hc_txn.specs.Writing.{HasWritten, IsTooBig};
ghost use Rattle.hc_txn.specs.Transactions.{HasOnlyRead, IsOf, LogsKeyToo, LogsRangeToo, LogsWithin, SeesTheSame, reads_of};

use crate::copying::copy_kept;
use crate::kept::Kept;
use crate::lasts::{later_cell, part_from, read_down};
use crate::logged::{read_key, read_logged};
use crate::marks::{MarkAt, has_mark, leave_inner};
use crate::own::OwnWrites;
use hc_base::{Cid, entry_fits};
use hc_core::{Cell, Desk, Part, Write};
use hc_range::{Bytes, NoMemory, Range, ReadLog, contains};
use hc_reads::Reads;
use sqlite_items::Items;
use std::alloc::Global;
use std::collections::LinkedList;
use std::marker::Model;
use thiserror::Error;

/// No savepoint has the name.
#[derive(Debug, Clone, Copy, PartialEq, Eq, Error)]
#[error("no such savepoint")]
pub struct NoMark;

/// Why a write was refused.
#[derive(Debug, Clone, Copy, PartialEq, Eq, Error)]
pub enum WriteFault {
    /// Its entry is over the limit: 16 and the lengths of its key and its record together.
    #[error("an entry of {0} bytes is over the limit")]
    TooBig(u64),
    /// An allocation was refused.
    #[error("out of memory")]
    NoMemory,
}

/// A transaction: what it has read of its snapshot, its own writes over it, and its savepoints.
#[derive(Drop)]
pub struct Txn {
    alloc: Global,
    snapshot: Cid,
    log: Reads,
    own: OwnWrites,
    // The innermost first.
    marks: LinkedList<MarkAt>,
    // How many own writes stood as the open statement began.
    statement: Option<usize>,
}

impl Model for Txn {
    ghost use Rattle.std.specs.Prelude.{length};
    ghost use Rattle.hc_txn.specs.Writing.{HasWritten, IsTooBig};
    ghost use Rattle.hc_txn.specs.Transactions.{Transaction};
    ghost use Rattle.hc_txn.specs.Marks.{IsNestedIn, marks_over, statement_over};

    ghost Value = { Transaction };

    ghost view = { λ t. record { snapshot = t.snapshot.0; log = t.log; own = t.own.own; kept = t.own.kept; marks = marks_over t.own.own t.marks; statement = statement_over t.own.own t.statement } };

    ghost invariant = { λ t. IsNestedIn t.statement (length t.own.own) t.marks };
}

// A copy of what a transaction sees at a key that it has written.
fn copy_seen(alloc: Global, kept: &Kept) -> Result<Option<Bytes>, NoMemory>
    ensures { IfOk result (λ copy. copy ≡ unwrap_or kept.entry.now.now kept.entry.now.before) }
{
    match &kept.now {
        Some(rec) => copy_kept(alloc, rec),
        None => copy_kept(alloc, &kept.before),
    }
}

impl Txn {
    /// A transaction that has read and written nothing.
    pub fn new(alloc: Global, snapshot: Cid) -> Txn
        ensures { result ≡ record { snapshot = snapshot.0; log = []; own = []; kept = []; marks = []; statement = None } }
    {
        Txn {
            alloc,
            snapshot,
            log: Reads::new(alloc),
            own: OwnWrites::new(alloc),
            marks: LinkedList::new(alloc),
            statement: None,
        }
    }

    /// Opens a transaction at a desk where none is open.
    pub fn begin<D: Desk>(alloc: Global, desk: &mut D) -> Txn
        requires idle { IsIdle (txns (D.account desk.old)) }
        ensures of { IsOf (D.account desk.new) result }
        ensures empty { (result.own ≡ []) × (result.marks ≡ []) × (result.statement ≡ None) }
        ensures entry { D.account desk.new ≡ entry_of (Begin (D.conn desk.old)) (Began (record { 0 = result.snapshot })) ∷ D.account desk.old }
        ensures snapshot { (D.seen desk.old ≤ result.snapshot) × (result.snapshot ≤ D.seen desk.new) }
        ensures on { GoesOn D.conn D.most D.seen D.later desk.old desk.new }
    {
        let snapshot = desk.begin();
        Txn::new(alloc, snapshot)
    }

    /// The number of commits that its snapshot has.
    pub fn snapshot(&self) -> Cid
        ensures { result.0 ≡ self.now.snapshot }
    {
        self.snapshot
    }

    /// The record at a key, as the transaction sees it. The key is read.
    pub fn get<D: Desk>(&mut self, desk: &mut D, key: &[u8]) -> Result<Option<Bytes>, NoMemory>
        requires of { IsOf (D.account desk.old) self.old }
        ensures found { IfOk result (λ found. (store : Store) → Agrees (reads_of (D.account desk.new)) store → found ≡ over self.old.own store key.now) }
        ensures log { OnOk result (LogsKeyToo key.now self.old.log self.new.log) }
        ensures no_memory { OnErr result (LogsWithin (only key.now) self.old.log self.new.log) }
        ensures same { SeesTheSame self.old self.new }
        ensures of { IsOf (D.account desk.new) self.new }
        ensures reads { HasOnlyRead (D.conn desk.old) (D.account desk.old) (D.account desk.new) }
        ensures on { GoesOn D.conn D.most D.seen D.later desk.old desk.new }
    {
        match self.own.find(key) {
            Some(kept) => copy_seen(self.alloc, kept),
            None => read_key(&mut self.log, self.alloc, desk, key),
        }
    }

    /// Adds the cells of a range to `out`, as the transaction sees them. The whole range is read. Of `out` nothing is said
    /// without memory.
    pub fn read_range<D: Desk>(
        &mut self,
        desk: &mut D,
        range: &Range,
        out: &mut Part,
    ) -> Result<(), NoMemory>
        requires of { IsOf (D.account desk.old) self.old }
        ensures cells { OnOk result (HasSeen self.old.own range.now (D.account desk.new) out.old.cells out.new.cells) }
        ensures log { OnOk result (LogsRangeToo range.now self.old.log self.new.log) }
        ensures no_memory { OnErr result (LogsWithin range.now self.old.log self.new.log) }
        ensures same { SeesTheSame self.old self.new }
        ensures of { IsOf (D.account desk.new) self.new }
        ensures reads { HasOnlyRead (D.conn desk.old) (D.account desk.old) (D.account desk.new) }
        ensures on { GoesOn D.conn D.most D.seen D.later desk.old desk.new }
    {
        if !contains(range, range.lo.as_slice()) {
            return Ok(());
        }
        let mut part = Part {
            cells: Items::new(self.alloc),
        };
        read_logged(&mut self.log, self.alloc, desk, range, &mut part)?;
        self.own.lay_over(self.alloc, range, part, out)
    }

    // The last cell of a range that is not empty, as the transaction sees it.
    fn find_last<D: Desk>(&mut self, desk: &mut D, range: &Range) -> Result<Option<Cell>, NoMemory>
        requires of { IsOf (D.account desk.old) self.old }
        requires some { InRange range.now range.now.lo }
        ensures last { IfOk result (IsLastSeen self.old.own range.now (D.account desk.new)) }
        ensures log { IfOk result (λ found. LogsRangeToo (part_from range.now found) self.old.log self.new.log) }
        ensures within { LogsWithin range.now self.old.log self.new.log }
        ensures same { SeesTheSame self.old self.new }
        ensures of { IsOf (D.account desk.new) self.new }
        ensures reads { HasOnlyRead (D.conn desk.old) (D.account desk.old) (D.account desk.new) }
        ensures on { GoesOn D.conn D.most D.seen D.later desk.old desk.new }
    {
        let own = self.own.last_put(self.alloc, range)?;
        let part = part_from(self.alloc, range, &own)?;
        let found = read_down(&mut self.log, &self.own, self.alloc, desk, &part)?;
        Ok(later_cell(own, found))
    }

    /// Adds the last cell of a range to `out`, as the transaction sees it. The range is read from its key on, and nothing
    /// below it. Where there is none the answer is false, and the whole range is read.
    pub fn last<D: Desk>(
        &mut self,
        desk: &mut D,
        range: &Range,
        out: &mut Part,
    ) -> Result<bool, NoMemory>
        requires of { IsOf (D.account desk.old) self.old }
        ensures last { IfOk result (λ some. HasSeenLast some self.old.own range.now (D.account desk.new) out.old.cells out.new.cells self.old.log self.new.log) }
        ensures no_memory { OnErr result (LogsWithin range.now self.old.log self.new.log × (out.new.cells ≡ out.old.cells)) }
        ensures same { SeesTheSame self.old self.new }
        ensures of { IsOf (D.account desk.new) self.new }
        ensures reads { HasOnlyRead (D.conn desk.old) (D.account desk.old) (D.account desk.new) }
        ensures on { GoesOn D.conn D.most D.seen D.later desk.old desk.new }
    {
        if !contains(range, range.lo.as_slice()) {
            return Ok(false);
        }
        match self.find_last(desk, range)? {
            Some(cell) => {
                out.cells.push(cell)?;
                Ok(true)
            }
            None => Ok(false),
        }
    }

    // Keeps the snapshot's record of a key, which is read where it was not kept before.
    fn know<D: Desk>(&mut self, desk: &mut D, key: &[u8]) -> Result<(), NoMemory>
        requires of { IsOf (D.account desk.old) self.old }
        ensures known { OnOk result (HoldsKey self.new.kept key.now) }
        ensures log { OnOk result (LogsKeyToo key.now self.old.log self.new.log) }
        ensures no_memory { OnErr result (LogsWithin (only key.now) self.old.log self.new.log) }
        ensures same { self.new ≡ record self.old { log = self.new.log; kept = self.new.kept } }
        ensures of { IsOf (D.account desk.new) self.new }
        ensures reads { HasOnlyRead (D.conn desk.old) (D.account desk.old) (D.account desk.new) }
        ensures on { GoesOn D.conn D.most D.seen D.later desk.old desk.new }
    {
        if let Some(_kept) = self.own.find(key) {
            return Ok(());
        }
        let before = read_key(&mut self.log, self.alloc, desk, key)?;
        self.own.add(self.alloc, key, before)
    }

    // Adds an own write at a key whose record in the snapshot is kept.
    fn put(&mut self, key: &[u8], rec: Option<&[u8]>) -> Result<(), NoMemory>
        requires kept { HoldsKey self.old.kept key.now }
        requires fits { entry_fits (length key.now) (length (record_of (option_copied rec))) ≡ true }
        ensures put { OnOk result (self.new ≡ record self.old { own = record { key = key.now; rec = option_copied rec.entry } ∷ self.old.own }) }
        ensures no_memory { OnErr result (self.new ≡ self.old) }
    {
        self.own.put(self.alloc, key, rec)
    }

    /// Puts a record at a key, or a tombstone. The key is read, and its record in the snapshot is kept from the first write
    /// on. An entry over the limit reads nothing.
    pub fn write<D: Desk>(
        &mut self,
        desk: &mut D,
        key: &[u8],
        rec: Option<&[u8]>,
    ) -> Result<(), WriteFault>
        requires of { IsOf (D.account desk.old) self.old }
        ensures written { HasWritten result key.now (option_copied rec.entry) self.old self.new }
        ensures too_big { IfErr result (λ fault. IsTooBig fault → (self.new ≡ self.old) × (D.account desk.new ≡ D.account desk.old)) }
        ensures same { self.new ≡ record self.old { log = self.new.log; own = self.new.own; kept = self.new.kept } }
        ensures of { IsOf (D.account desk.new) self.new }
        ensures reads { HasOnlyRead (D.conn desk.old) (D.account desk.old) (D.account desk.new) }
        ensures on { GoesOn D.conn D.most D.seen D.later desk.old desk.new }
    {
        let rec_len = length_of(rec);
        let key_len = key.len() as u64;
        if !entry_fits(key_len, rec_len) {
            return Err(WriteFault::TooBig(key_len.saturating_add(rec_len).saturating_add(16)));
        }
        if self.know(desk, key).is_err() {
            return Err(WriteFault::NoMemory);
        }
        match self.put(key, rec) {
            Ok(()) => Ok(()),
            Err(_) => Err(WriteFault::NoMemory),
        }
    }

    /// Sets a savepoint, which ends the open statement. Names may be there twice, and the innermost counts.
    pub fn mark(&mut self, name: &str) -> Result<(), NoMemory>
        ensures marked { OnOk result (self.new ≡ record self.old { marks = record { name = name.now; own = self.old.own } ∷ self.old.marks; statement = None }) }
        ensures no_memory { OnErr result (self.new ≡ self.old) }
    {
        let count = self.own.len();
        let name = String::from_str(self.alloc, name)?;
        self.marks.push_front(MarkAt { name, count })?;
        self.statement = None;
        Ok(())
    }

    /// Undoes the writes since a savepoint, which stays; those inside it are gone. It ends the open statement.
    pub fn undo_to(&mut self, name: &str) -> Result<(), NoMark>
        ensures { HasUndone result (marks_from name.now self.old.marks) self.old self.new }
    {
        if !has_mark(&self.marks, name) {
            return Err(NoMark);
        }
        let Some(count) = leave_inner(&mut self.marks, name) else {
            unreachable!();
        };
        self.own.undo_to(count);
        self.statement = None;
        Ok(())
    }

    /// Takes a savepoint off, and all that are inside it; their writes stay. It ends the open statement.
    pub fn release(&mut self, name: &str) -> Result<(), NoMark>
        ensures { HasReleased result (marks_from name.now self.old.marks) self.old self.new }
    {
        if !has_mark(&self.marks, name) {
            return Err(NoMark);
        }
        leave_inner(&mut self.marks, name);
        self.marks.pop_front();
        self.statement = None;
        Ok(())
    }

    /// Begins a statement. What it writes can be undone.
    pub fn start_statement(&mut self)
        ensures { self.new ≡ record self.old { statement = Some self.old.own } }
    {
        self.statement = Some(self.own.len());
    }

    /// Ends the open statement, and keeps its writes. It always succeeds.
    pub fn keep_statement(&mut self) -> Result<(), NoMemory>
        ensures kept { self.new ≡ record self.old { statement = None } }
        ensures succeeds { IsOk result }
    {
        self.statement = None;
        Ok(())
    }

    /// Ends the open statement, and undoes its writes. What it read stays read.
    pub fn undo_statement(&mut self)
        ensures { self.new ≡ record self.old { own = started self.old.own self.old.statement; statement = None } }
    {
        let Some(count) = self.statement else {
            return;
        };
        self.own.undo_to(count);
        self.statement = None;
    }
}

/// What a commit takes of a transaction.
#[derive(Drop)]
pub struct Net {
    /// The number of commits that its snapshot has.
    pub snapshot: Cid,
    /// The keys that it has read.
    pub log: ReadLog,
    /// What it sees where that differs from its snapshot, in ascending order of keys.
    pub writes: Vec<Write>,
}

impl Txn {
    /// Its net writes: the keys at which what it sees differs from its snapshot. No desk is asked, and no record is copied.
    pub fn into_net(self) -> Result<Net, NoMemory>
        ensures kept { IfOk result (λ net. (net.snapshot.0 ≡ self.snapshot) × HaveSameKeys self.log net.log) }
        ensures ascending { IfOk result (λ net. AreAscendingWrites net.writes.items) }
        ensures fit { IfOk result (λ net. EachFits net.writes.items) }
        ensures net { IfOk result (λ net. (account : List Entry) → IsOf account self → (store : Store) → Agrees (reads_of account) store
            → AreNetWrites self.own store net.writes.items) }
    {
        let Txn {
            alloc,
            snapshot,
            log,
            own,
            marks: _marks,
            statement: _statement,
        } = self;
        let log = log.into_log()?;
        let writes = own.into_net(alloc)?;
        Ok(Net {
            snapshot,
            log,
            writes,
        })
    }
}

// How many bytes a record has. A tombstone has none.
fn length_of(rec: Option<&[u8]>) -> u64
    ensures { result ≡ length (record_of (option_copied rec.entry)) }
{
    match rec {
        Some(rec) => rec.len() as u64,
        None => 0,
    }
}

fn hand_over<T: Send>(value: T) -> T
    ensures { result ≡ value }
{
    value
}

/// A transaction may go to another thread, whatever desk it is of.
pub fn handed_over(txn: Txn) -> Txn
    ensures { result ≡ txn }
{
    hand_over(txn)
}
