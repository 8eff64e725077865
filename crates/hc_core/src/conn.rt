// A connection of the machine: its account, and what is kept of its open transaction.
ghost use Rattle.std.specs.Prelude.{◌≡◌, ◌≢◌, ◌<◌, [], None, ◌∷◌, MatchOption, IfOk, OnOk, OnErr};
ghost use Rattle.std.specs.Option.{option_copied};
ghost use Rattle.hc_core.specs.Account.{HasWritten, IsIdle, WhenOpen, txns};
ghost use Rattle.hc_core.specs.Calls.{AreShortKeys};
ghost use Rattle.hc_core.specs.Diary.{entry_of};
ghost use Rattle.hc_base.specs.Lookup.{Among};
ghost use Rattle.hc_core.specs.Running.{HaveSameWrites, Matches, greatest_ord};
ghost use Rattle.hc_core.specs.declared.account.Entry.TheVariants.{Reserved};
ghost use Rattle.hc_core.specs.declared.event.Event.TheVariants.{Begin, Draw, Read, Put, Propose, Check, Decide, Unput, End};
ghost use Rattle.hc_core.specs.declared.outcome.Outcome.TheVariants.{Done, Began, Drew, Cells, Met as MetAnswer, Proposed, Lost as LostAnswer, Decided};

use crate::copying::lent;
use crate::diary::Diary;
use crate::running::{Running, taken};
use crate::said::Said;
use crate::write_set::WriteSet;
use crate::{Cell, Lost, Met, NoMemory, Outcome, Write};
use hc_base::{Cid, Tid};
use hc_range::{Bytes, Range};
use std::alloc::Global;
use std::marker::Model;
use std::mem::replace;

/// A connection. Contracts see its account. Each call but the questions enters one event with its answer.
#[derive(Drop)]
pub struct Conn {
    diary: Diary,
    last_ord: u32,
    running: Option<Running>,
}

impl Model for Conn {
    ghost use Rattle.std.specs.Prelude.{◌≡◌, List};
    ghost use Rattle.hc_core.specs.declared.account.Entry.{Entry};
    ghost use Rattle.hc_core.specs.Account.{txns};
    ghost use Rattle.hc_core.specs.Running.{IsOpenIn, greatest_ord};

    ghost Value = { List Entry };

    ghost view = { λ conn. conn.diary };

    ghost invariant = { λ conn. IsOpenIn conn.running (txns conn.diary) × (conn.last_ord ≡ greatest_ord (txns conn.diary)) };
}

impl Conn {
    /// A connection to which nothing has happened.
    pub fn new(alloc: Global) -> Result<Conn, NoMemory>
        ensures { IfOk result (λ conn. conn ≡ []) }
    {
        let diary = Diary::new(alloc)?;
        Ok(Conn {
            diary,
            last_ord: 0,
            running: None,
        })
    }

    /// The open transaction, if there is one.
    pub fn running(&self) -> Option<&Running>
        ensures { MatchOption result (IsIdle (txns self.now)) (λ r. WhenOpen (txns self.now) (Matches r.now)) }
    {
        self.running.as_ref()
    }

    /// The greatest ordinal that was drawn with, or 0.
    pub fn last_ord(&self) -> u32
        ensures { result ≡ greatest_ord (txns self.now) }
    {
        self.last_ord
    }

    /// Opens a transaction.
    pub fn begin(&mut self, alloc: Global, conn: u32, snapshot: u32) -> Outcome
        requires idle { IsIdle (txns self.old) }
        ensures outcome { result ≡ Began (record { 0 = snapshot }) }
        ensures account { self.new ≡ entry_of (Begin conn) (Began (record { 0 = snapshot })) ∷ self.old }
    {
        self.running = Some(Running::new(alloc, snapshot));
        self.diary.note(Said::Began { conn, snapshot }, &[], None);
        Outcome::Began(Cid(snapshot))
    }

    /// Draws an id.
    pub fn draw(&mut self, conn: u32, ord: u32, tid: u32) -> Outcome
        requires open { WhenOpen (txns self.old) (λ _. Unit {0}) }
        requires above { greatest_ord (txns self.old) < ord }
        requires drawn { 0 < tid }
        ensures outcome { result ≡ Drew (record { 0 = tid }) }
        ensures account { self.new ≡ entry_of (Draw conn ord) (Drew (record { 0 = tid })) ∷ self.old }
    {
        let Some(running) = &mut self.running else {
            unreachable!()
        };
        running.tid = tid;
        running.ord = ord;
        self.last_ord = ord;
        self.diary.note(Said::Drew { conn, ord, tid }, &[], None);
        Outcome::Drew(Tid(tid))
    }

    /// Enters a read of a range, whose cells are given. Where it runs out of memory nothing has happened.
    pub fn read(&mut self, conn: u32, range: &Range, cells: &[Cell]) -> Result<(), NoMemory>
        requires open { WhenOpen (txns self.old) (λ _. Unit {0}) }
        ensures account { OnOk result (self.new ≡ entry_of (Read conn range.now.lo range.now.hi) (Cells (record { cells = cells.now })) ∷ self.old) }
        ensures no_memory { OnErr result (self.new ≡ self.old) }
    {
        let mut running = taken(&mut self.running);
        let added = running.reads.add(range);
        self.running = Some(running);
        added?;
        self.diary.note_read(conn, range, cells);
        Ok(())
    }

    /// Enters a put, for which it takes the memory unless its write is held already. Out of memory nothing has happened.
    pub fn put(
        &mut self,
        alloc: Global,
        conn: u32,
        key: &[u8],
        rec: Option<&[u8]>,
    ) -> Result<Outcome, NoMemory>
        requires open { WhenOpen (txns self.old) (λ t. (t.place ≡ 0) × (HasWritten t key.now → ⊥)) }
        ensures outcome { IfOk result (λ outcome. outcome ≡ Done) }
        ensures account { OnOk result (self.new ≡ entry_of (Put conn key.now (option_copied rec.entry)) Done ∷ self.old) }
        ensures no_memory { OnErr result (self.new ≡ self.old) }
    {
        let mut running = taken(&mut self.running);
        let added = running.writes.add(alloc, key, rec);
        self.running = Some(running);
        added?;
        self.diary.note(Said::Put { conn }, key, rec);
        Ok(Outcome::Done)
    }

    /// Enters a put of a write for which there is room.
    pub fn put_reserved(&mut self, conn: u32, key: &[u8], rec: Option<&[u8]>)
        requires open { WhenOpen (txns self.old) (λ t. (t.place ≡ 0) × Among (record { key = key.now; rec = option_copied rec }) t.reserved × (HasWritten t key.now → ⊥)) }
        ensures { self.new ≡ entry_of (Put conn key.now (option_copied rec.entry)) Done ∷ self.old }
    {
        let mut running = taken(&mut self.running);
        running.writes.put_held(key, rec);
        self.running = Some(running);
        self.diary.note(Said::Put { conn }, key, rec);
    }

    /// Makes room for writes, none of which is put.
    pub fn make_room(&mut self, conn: u32, writes: Vec<Write>)
        requires open { WhenOpen (txns self.old) (λ t. (t.id ≢ 0) × (t.write_set ≡ [])) }
        requires short { AreShortKeys writes.items }
        ensures { self.new ≡ Reserved conn writes.items ∷ self.old }
    {
        let mut running = taken(&mut self.running);
        self.diary.note_room(conn, writes.as_slice());
        running.writes = WriteSet::of(writes);
        self.running = Some(running);
    }

    /// Enters a check that found nothing, and does not keep which part was checked.
    pub fn check_unkept(&mut self, conn: u32, from: &[u8], upto: &Option<Bytes>)
        requires open { WhenOpen (txns self.old) (λ t. t.weight ≢ None) }
        ensures { self.new ≡ entry_of (Check conn from.now upto.now) Done ∷ self.old }
    {
        self.diary.note(Said::Checked { conn }, from, lent(upto));
    }

    /// Enters that a put was refused.
    pub fn refuse_put(&mut self, conn: u32, key: &[u8], rec: Option<&[u8]>, met: &Met)
        requires open { WhenOpen (txns self.old) (λ _. Unit {0}) }
        ensures { self.new ≡ entry_of (Put conn key.now (option_copied rec.entry)) (MetAnswer met.now) ∷ self.old }
    {
        self.diary.note_met(Said::Put { conn }, key, rec, met);
    }

    /// Enters that a check was refused.
    pub fn refuse_check(&mut self, conn: u32, from: &[u8], upto: &Option<Bytes>, met: &Met)
        requires open { WhenOpen (txns self.old) (λ _. Unit {0}) }
        ensures { self.new ≡ entry_of (Check conn from.now upto.now) (MetAnswer met.now) ∷ self.old }
    {
        self.diary
            .note_met(Said::Checked { conn }, from, lent(upto), met);
    }

    /// Proposes a commit number.
    pub fn propose(&mut self, conn: u32, number: u32) -> Outcome
        requires open { WhenOpen (txns self.old) (λ _. Unit {0}) }
        ensures outcome { result ≡ Proposed (record { 0 = number }) }
        ensures account { self.new ≡ entry_of (Propose conn) (Proposed (record { 0 = number })) ∷ self.old }
    {
        let mut running = taken(&mut self.running);
        running.set_proposal(number);
        self.running = Some(running);
        self.diary.note(Said::Proposed { conn, number }, &[], None);
        Outcome::Proposed(Cid(number))
    }

    /// Enters a check of a range that found nothing. Where it runs out of memory nothing has happened.
    pub fn check(&mut self, conn: u32, range: &Range) -> Result<Outcome, NoMemory>
        requires open { WhenOpen (txns self.old) (λ _. Unit {0}) }
        ensures outcome { IfOk result (λ outcome. outcome ≡ Done) }
        ensures account { OnOk result (self.new ≡ entry_of (Check conn range.now.lo range.now.hi) Done ∷ self.old) }
        ensures no_memory { OnErr result (self.new ≡ self.old) }
    {
        let mut running = taken(&mut self.running);
        let added = running.checked.add(range);
        self.running = Some(running);
        added?;
        self.diary.note(Said::Checked { conn }, range.lo.as_slice(), lent(&range.hi));
        Ok(Outcome::Done)
    }

    /// Takes a commit number, and hands over the write set.
    pub fn decide(&mut self, alloc: Global, conn: u32, number: u32) -> Vec<Write>
        requires open { WhenOpen (txns self.old) (λ t. t.place ≡ 0) }
        requires number { 0 < number }
        ensures account { self.new ≡ entry_of (Decide conn) (Decided (record { 0 = number })) ∷ self.old }
        ensures writes { WhenOpen (txns self.old) (λ t. HaveSameWrites result.items t.write_set) }
    {
        let mut running = taken(&mut self.running);
        let writes = replace(&mut running.writes, WriteSet::of(Vec::new(alloc))).into_put();
        running.place = number;
        self.running = Some(running);
        self.diary.note(Said::Decided { conn, number }, &[], None);
        writes
    }

    /// Loses the proposed number to the transaction with another id.
    pub fn lose(&mut self, conn: u32, number: u32, other: u32) -> Lost
        requires open { WhenOpen (txns self.old) (λ _. Unit {0}) }
        ensures lost { result ≡ record { cid = record { 0 = number }; other = record { 0 = other } } }
        ensures account { self.new ≡ entry_of (Decide conn) (LostAnswer result) ∷ self.old }
    {
        let mut running = taken(&mut self.running);
        running.set_proposal(0);
        self.running = Some(running);
        let lost = Lost {
            cid: Cid(number),
            other: Tid(other),
        };
        self.diary.note(Said::Lost { conn, lost }, &[], None);
        lost
    }

    /// Takes a put out.
    pub fn unput(&mut self, conn: u32, key: &[u8]) -> Outcome
        requires open { WhenOpen (txns self.old) (λ t. HasWritten t key.now × (t.place ≡ 0)) }
        ensures outcome { result ≡ Done }
        ensures account { self.new ≡ entry_of (Unput conn key.now) Done ∷ self.old }
    {
        let mut running = taken(&mut self.running);
        running.writes.take_back(key);
        self.running = Some(running);
        self.diary.note(Said::Unput { conn }, key, None);
        Outcome::Done
    }

    /// Ends the transaction.
    pub fn end(&mut self, conn: u32) -> Outcome
        requires open { WhenOpen (txns self.old) (λ _. Unit {0}) }
        ensures outcome { result ≡ Done }
        ensures account { self.new ≡ entry_of (End conn) Done ∷ self.old }
    {
        self.running = None;
        self.diary.note(Said::Ended { conn }, &[], None);
        Outcome::Done
    }
}
