ghost use Rattle.std.specs.Prelude.{◌⊎◌, ◌↔◌, IsTrue, true, ◌≡◌, ◌≢◌, ◌^◌, ◌-◌, ℕ, ◌<◌, ◌≤◌, [], Option, None, MatchOption, IfOk, OnOk, OnErr, length, replicate};
ghost use Rattle.std.specs.Option.{option_copied};
ghost use Rattle.hc_core.specs.Keys.{IsShortKey};
ghost use Rattle.hc_core.specs.Account.{IsIdle, HasWritten, Txn, WhenOpen};
ghost use Rattle.hc_core.specs.Calls.{AreShortKeys, AreSnapshotCells, HasDrawn, HasLast, HasMadeRoom, HasReadCells, HaveShortKeys, IsExtended, MayPutReserved};
ghost use Rattle.hc_core.specs.Desk.{decide_outcome, put_outcome};
ghost use Rattle.hc_core.specs.ListDesk.{HasRoomOnceDrawn, Owns};
ghost use Rattle.hc_core.specs.Kept.{DecidesOnKept, KeepsChecks, MayTakeMemory, PutsShortKey};
ghost use Rattle.hc_core.specs.Machine.{Answers, IsEnabled, IsFree, Names, after, entered, start, txns_of, with_entry};
ghost use Rattle.hc_core.specs.Running.{Matches, greatest_ord};
ghost use Rattle.hc_core.specs.Sound.{IsSound};
ghost use Rattle.hc_core.specs.Versions.{IsInTheWay};
ghost use Rattle.hc_core.specs.declared.account.Entry.TheVariants.{Reserved};
ghost use Rattle.hc_core.specs.declared.outcome.Outcome.TheVariants.{Done, Cells, Met as MetAnswer};
ghost use Rattle.hc_core.specs.declared.event.Event.TheVariants.{Begin, Draw, Read, Put, Propose, Check, Decide, Unput, End, Purge};

use crate::base::Base;
use crate::commit::Commit;
use crate::conn::Conn;
use crate::copying::{copy_part, copy_writes, lent, push_all};
use crate::enabled::{may_decide, may_end, may_put};
use crate::log::{found_between, met_above, newest_tombstone};
use crate::running::Running;
use crate::writers::{are_above, has_writer, least_snapshot, open_writer};
use crate::{Cell, Event, Lost, Met, NoMemory, Outcome, Part, Write};
use hc_base::Cid;
use hc_range::{Bytes, Range};
use sqlite_items::Items;
use std::alloc::{AllocError, Global};
use std::marker::Model;

/// The transaction machine of some number of connections, over lists. Contracts see the ids of the log
/// and the account of each connection. It is the reference model of every faster body, and plain on purpose.
#[derive(Drop)]
pub struct Core {
    alloc: Global,
    drawn: u32,
    log: Vec<Commit>,
    base: Base,
    conns: Vec<Conn>,
}

impl Model for Core {
    ghost use Rattle.std.specs.Prelude.{vec_capacity};
    ghost use Rattle.hc_core.specs.Base.{IsBased};
    ghost use Rattle.hc_core.specs.Kept.{IsKept, machine_of};
    ghost use Rattle.hc_core.specs.Machine.{Machine};

    ghost Value = { Machine };

    ghost view = { λ core. machine_of core.drawn core.log.items core.conns.items };

    ghost invariant = { λ core. IsKept core.drawn core.log.items (vec_capacity core.log) core.conns.items × IsBased core.base core.log.items };
}

impl Core {
    /// A new machine for some number of connections, at least 1, which are counted from 0. It takes memory for
    /// each of them; where an allocation is refused there is no machine.
    pub fn new(alloc: Global, conns: u32) -> Result<Core, NoMemory>
        requires { 0 < conns }
        ensures { IfOk result (λ core. core ≡ start conns) }
    {
        Ok(Core {
            alloc,
            drawn: 0,
            log: Vec::new(alloc),
            base: Base::new(alloc),
            conns: new_conns(alloc, conns)?,
        })
    }

    /// Takes one event of any connection, in any order, and answers it by the table of the machine
    /// (`IsEnabled`, `IsAnswer` and `after` in `specs/Machine.antt`): `NotNow` exactly where the event is not
    /// enabled, and then nothing has changed. The machine is sound after it. A put has a key of at most 463
    /// bytes. Draws, reads, puts and checks take memory; after want of it all is as before.
    pub fn step(&mut self, event: &Event) -> Result<Outcome, NoMemory>
        requires key { PutsShortKey event.now }
        requires checks { DecidesOnKept self.old event.now }
        ensures answer { IfOk result (λ outcome. Answers self.old event.now outcome) }
        ensures after { IfOk result (λ outcome. self.new ≡ after self.old event.now outcome) }
        ensures sound { IsSound self.new }
        ensures memory { OnErr result (MayTakeMemory event.now) }
        ensures no_memory { OnErr result (self.new ≡ self.old) }
    {
        let outcome = self.answer(event);
        self.see_sound();
        outcome
    }

    /// What the invariant says of the machine between two events.
    pub(crate) fn see_sound(&self)
        ensures { IsSound self.now }
    {
        let _log = &self.log;
    }

    // The answer of the event's row.
    fn answer(&mut self, event: &Event) -> Result<Outcome, NoMemory>
        requires key { PutsShortKey event.now }
        requires checks { DecidesOnKept self.old event.now }
        ensures answer { IfOk result (λ outcome. Answers self.old event.now outcome) }
        ensures after { IfOk result (λ outcome. self.new ≡ after self.old event.now outcome) }
        ensures memory { OnErr result (MayTakeMemory event.now) }
        ensures no_memory { OnErr result (self.new ≡ self.old) }
    {
        match event {
            Event::Begin { conn } => Ok(self.begin(*conn)),
            Event::Draw { conn, ord } => self.draw(*conn, *ord),
            Event::Read { conn, from, upto } => self.read(*conn, from.as_slice(), upto),
            Event::Put { conn, key, rec } => self.put(*conn, key.as_slice(), lent(rec)),
            Event::Propose { conn } => Ok(self.propose(*conn)),
            Event::Check { conn, from, upto } => self.check(*conn, from.as_slice(), upto),
            Event::Decide { conn } => Ok(self.decide(*conn)),
            Event::Unput { conn, key } => Ok(self.unput(*conn, key.as_slice())),
            Event::End { conn } => Ok(self.end(*conn)),
            Event::Purge { key } => Ok(self.purge(key.as_slice())),
        }
    }

    // The open transaction of a connection, if there is one.
    fn open(&self, conn: u32) -> Option<&Running>
        ensures { MatchOption result (IsIdle (txns_of self.now conn)) (λ r. WhenOpen (txns_of self.now conn) (Matches r.now)) }
    {
        match self.conns.get(conn as usize) {
            Some(conn) => conn.running(),
            None => None,
        }
    }

    // Opens a transaction.
    pub(crate) fn begin(&mut self, conn: u32) -> Outcome
        ensures answer { Answers self.old (Begin conn) result }
        ensures after { self.new ≡ after self.old (Begin conn) result }
    {
        let index = conn as usize;
        if index >= self.conns.len() {
            return Outcome::NotNow;
        }
        if self.open(conn).is_some() {
            return Outcome::NotNow;
        }
        let snapshot = self.log.len() as u32;
        self.conns[index].begin(self.alloc, conn, snapshot)
    }

    // Draws the next id, and makes room for the commit in the log.
    fn draw(&mut self, conn: u32, ord: u32) -> Result<Outcome, NoMemory>
        ensures answer { IfOk result (λ outcome. Answers self.old (Draw conn ord) outcome) }
        ensures after { IfOk result (λ outcome. self.new ≡ after self.old (Draw conn ord) outcome) }
        ensures no_memory { OnErr result (self.new ≡ self.old) }
    {
        let Some(running) = self.open(conn) else {
            return Ok(Outcome::NotNow);
        };
        if running.tid != 0 {
            return Ok(Outcome::NotNow);
        }
        let conns = &self.conns;
        if ord <= conns[conn as usize].last_ord() {
            return Ok(Outcome::NotNow);
        }
        if self.drawn == u32::MAX {
            return Ok(Outcome::NotNow);
        }
        let tid = self.drawn + 1;
        let more = tid as usize - self.log.len();
        self.log.reserve(more)?;
        self.drawn = tid;
        Ok(self.conns[conn as usize].draw(conn, ord, tid))
    }

    /// Whether a desk may be made for a connection: it is there, and no transaction of it is open that has drawn its id. A
    /// desk may be made besides where a desk drew it.
    pub fn takes_desk(&self, conn: u32) -> bool
        ensures exact { IsTrue result ↔ ((conn < length self.now.accounts) × (IsIdle (txns_of self.now conn) ⊎ WhenOpen (txns_of self.now conn) (λ t. t.id ≡ 0))) }
        ensures owns { result ≡ true → Owns self.now conn }
    {
        if conn as usize >= self.conns.len() {
            return false;
        }
        self.has_not_drawn(conn)
    }

    // Whether no transaction is open that has drawn its id.
    fn has_not_drawn(&self, conn: u32) -> bool
        ensures exact { IsTrue result ↔ (IsIdle (txns_of self.now conn) ⊎ WhenOpen (txns_of self.now conn) (λ t. t.id ≡ 0)) }
        ensures room { result ≡ true → HasRoomOnceDrawn (txns_of self.now conn) }
    {
        match self.open(conn) {
            Some(running) => running.tid == 0,
            None => true,
        }
    }

    // Whether a read is enabled: no id is drawn.
    fn may_read(&self, conn: u32) -> bool
        ensures { IsTrue result ↔ WhenOpen (txns_of self.now conn) (λ t. t.id ≡ 0) }
    {
        match self.open(conn) {
            Some(running) => running.tid == 0,
            None => false,
        }
    }

    // Whether a proposal is enabled: an id is drawn, and nothing is decided.
    fn may_propose(&self, conn: u32) -> bool
        ensures { IsTrue result ↔ WhenOpen (txns_of self.now conn) (λ t. (t.id ≢ 0) × (t.place ≡ 0)) }
    {
        match self.open(conn) {
            Some(running) => running.tid != 0 && running.place == 0,
            None => false,
        }
    }

    // Whether a check is enabled: something is proposed.
    fn may_check(&self, conn: u32) -> bool
        ensures { IsTrue result ↔ WhenOpen (txns_of self.now conn) (λ t. t.proposed ≢ 0) }
    {
        match self.open(conn) {
            Some(running) => running.proposed != 0,
            None => false,
        }
    }

    // Whether a key may be taken back: it is put, and nothing is decided.
    fn may_unput(&self, conn: u32, key: &[u8]) -> bool
        ensures { IsTrue result ↔ WhenOpen (txns_of self.now conn) (λ t. HasWritten t key.now × (t.place ≡ 0)) }
    {
        match self.open(conn) {
            Some(running) => running.place == 0 && running.writes.has(key),
            None => false,
        }
    }

    // Whether a transaction may end: it is decided, or nothing is put.
    fn may_end(&self, conn: u32) -> bool
        ensures { IsTrue result ↔ WhenOpen (txns_of self.now conn) (λ t. (t.place ≢ 0) ⊎ (t.write_set ≡ [])) }
    {
        match self.open(conn) {
            Some(running) => may_end(running),
            None => false,
        }
    }

    // A transaction that is open.
    fn opened(&self, conn: u32) -> &Running
        requires open { WhenOpen (txns_of self.now conn) (λ _. Unit {0}) }
        ensures { WhenOpen (txns_of self.now conn) (Matches result.now) }
    {
        let Some(running) = self.open(conn) else {
            unreachable!()
        };
        running
    }

    // The cells of the snapshot in a range.
    fn cells_in(&self, alloc: Global, conn: u32, range: &Range) -> Result<Vec<Cell>, NoMemory>
        requires open { WhenOpen (txns_of self.now conn) (λ _. Unit {0}) }
        ensures snapshot { IfOk result (λ cells. AreSnapshotCells self.now conn range.now cells.items) }
        ensures short { IfOk result (λ cells. HaveShortKeys cells.items) }
    {
        let snapshot = self.opened(conn).snapshot as usize;
        self.base
            .cells_at(alloc, self.log.as_slice(), snapshot, range)
    }

    // Enters a read of a range, whose cells are given.
    fn enter_read(&mut self, conn: u32, range: &Range, cells: &[Cell]) -> Result<(), NoMemory>
        requires reading { WhenOpen (txns_of self.old conn) (λ t. t.id ≡ 0) }
        requires cells { AreSnapshotCells self.old conn range.now cells.now }
        ensures after { OnOk result (self.new ≡ entered self.old conn (Read conn range.now.lo range.now.hi) (Cells (record { cells = cells.now }))) }
        ensures no_memory { OnErr result (self.new ≡ self.old) }
    {
        self.conns[conn as usize].read(conn, range, cells)?;
        self.go_on();
        Ok(())
    }

    // Brings the base up to what each open transaction sees, so that reads go over the entries after that alone.
    fn go_on(&mut self)
        ensures { self.new ≡ self.old }
    {
        let seen = least_snapshot(self.conns.as_slice(), self.log.len());
        self.base.go_on(self.alloc, self.log.as_slice(), seen);
    }

    /// Adds the cells of the snapshot in a part to `out`. Out of memory nothing has happened, but some of the cells may be
    /// added.
    pub(crate) fn read_part(
        &mut self,
        alloc: Global,
        conn: u32,
        from: &[u8],
        upto: &Option<Bytes>,
        out: &mut Part,
    ) -> Result<(), NoMemory>
        requires reading { WhenOpen (txns_of self.old conn) (λ t. t.id ≡ 0) }
        ensures read { OnOk result (HasReadCells conn from.now upto.now self.old self.new out.old.cells out.new.cells) }
        ensures no_memory { OnErr result ((self.new ≡ self.old) × IsExtended out.old.cells out.new.cells) }
    {
        let part = copy_part(alloc, from, upto)?;
        let cells = self.cells_in(alloc, conn, &part)?;
        let count = out.cells.len();
        push_all(&mut out.cells, cells)?;
        self.enter_read(conn, &part, &out.cells.as_slice()[count..])
    }

    // Reads the cells of the snapshot in a part.
    fn read(&mut self, conn: u32, from: &[u8], upto: &Option<Bytes>) -> Result<Outcome, NoMemory>
        ensures answer { IfOk result (λ outcome. Answers self.old (Read conn from.now upto.now) outcome) }
        ensures after { IfOk result (λ outcome. self.new ≡ after self.old (Read conn from.now upto.now) outcome) }
        ensures no_memory { OnErr result (self.new ≡ self.old) }
    {
        if !self.may_read(conn) {
            return Ok(Outcome::NotNow);
        }
        let mut part = Part {
            cells: Items::new(self.alloc),
        };
        self.read_part(self.alloc, conn, from, upto, &mut part)?;
        Ok(Outcome::Cells(part))
    }

    // Puts a record or a tombstone at a key, unless something is in its way.
    fn put(&mut self, conn: u32, key: &[u8], rec: Option<&[u8]>) -> Result<Outcome, NoMemory>
        requires short { IsShortKey key.now }
        ensures answer { IfOk result (λ outcome. Answers self.old (Put conn key.now (option_copied rec.entry)) outcome) }
        ensures after { IfOk result (λ outcome. self.new ≡ after self.old (Put conn key.now (option_copied rec.entry)) outcome) }
        ensures no_memory { OnErr result (self.new ≡ self.old) }
    {
        let Some(running) = self.open(conn) else {
            return Ok(Outcome::NotNow);
        };
        if !may_put(running, key) {
            return Ok(Outcome::NotNow);
        }
        let snapshot = running.snapshot as usize;
        if let Some(met) = self.in_the_way(conn, snapshot, key) {
            self.conns[conn as usize].refuse_put(conn, key, rec, &met);
            return Ok(Outcome::Met(met));
        }
        let outcome = self.conns[conn as usize].put(self.alloc, conn, key, rec)?;
        Ok(outcome)
    }

    // Looks whether a commit between put a key of a part.
    fn check(&mut self, conn: u32, from: &[u8], upto: &Option<Bytes>) -> Result<Outcome, NoMemory>
        ensures answer { IfOk result (λ outcome. Answers self.old (Check conn from.now upto.now) outcome) }
        ensures after { IfOk result (λ outcome. self.new ≡ after self.old (Check conn from.now upto.now) outcome) }
        ensures no_memory { OnErr result (self.new ≡ self.old) }
    {
        if !self.may_check(conn) {
            return Ok(Outcome::NotNow);
        }
        if let Some(met) = self.found(conn, from, upto) {
            self.conns[conn as usize].refuse_check(conn, from, upto, &met);
            return Ok(Outcome::Met(met));
        }
        let part = copy_part(self.alloc, from, upto)?;
        let outcome = self.conns[conn as usize].check(conn, &part)?;
        Ok(outcome)
    }

    // What a check of a part finds.
    fn found(&self, conn: u32, from: &[u8], upto: &Option<Bytes>) -> Option<Met>
        requires proposing { WhenOpen (txns_of self.now conn) (λ t. t.proposed ≢ 0) }
        ensures { MatchOption result
            (Answers self.now (Check conn from.now upto.now) Done)
            (λ met. Answers self.now (Check conn from.now upto.now) (MetAnswer met)) }
    {
        let running = self.opened(conn);
        let (snapshot, number) = (running.snapshot as usize, running.proposed as usize);
        found_between(self.log.as_slice(), snapshot, number, from, upto)
    }

    // What a put of a key with a snapshot meets, where the connection itself has not put it.
    fn in_the_way(&self, conn: u32, snapshot: usize, key: &[u8]) -> Option<Met>
        requires short { IsShortKey key.now }
        requires own { WhenOpen (txns_of self.now conn) (λ t. (t.place ≡ 0) × HasWritten t key.now) → ⊥ }
        ensures { MatchOption result
            ((i : ℕ) → IsFree (txns_of self.now) i snapshot key.now)
            (λ met. (i : ℕ) → (WhenOpen (txns_of self.now i) (λ t. (t.place ≡ 0) × HasWritten t key.now) → ⊥)
            → (j : ℕ) × (u : Txn) × IsInTheWay (txns_of self.now) i snapshot key.now j u × Names met j u key.now) }
    {
        if let Some(met) = open_writer(self.conns.as_slice(), conn, key) {
            return Some(met);
        }
        met_above(self.log.as_slice(), snapshot, key)
    }

    // Asks whether a key may be forgotten.
    fn purge(&self, key: &[u8]) -> Outcome
        ensures { Answers self.now (Purge key.now) result }
    {
        if has_writer(self.conns.as_slice(), key) {
            return Outcome::NotNow;
        }
        let Some(place) = newest_tombstone(self.log.as_slice(), key) else {
            return Outcome::NotNow;
        };
        if !are_above(self.conns.as_slice(), place) {
            return Outcome::NotNow;
        }
        Outcome::Done
    }

    // Proposes the next commit number.
    pub(crate) fn propose(&mut self, conn: u32) -> Outcome
        ensures answer { Answers self.old (Propose conn) result }
        ensures after { self.new ≡ after self.old (Propose conn) result }
    {
        if !self.may_propose(conn) {
            return Outcome::NotNow;
        }
        let number = self.log.len() as u32 + 1;
        self.conns[conn as usize].propose(conn, number)
    }

    // Takes the proposed number, where that is enabled.
    fn decide(&mut self, conn: u32) -> Outcome
        requires seen { KeepsChecks self.old conn }
        ensures answer { Answers self.old (Decide conn) result }
        ensures after { self.new ≡ after self.old (Decide conn) result }
    {
        let Some(running) = self.open(conn) else {
            return Outcome::NotNow;
        };
        if !may_decide(running) {
            return Outcome::NotNow;
        }
        match self.settle(conn) {
            Ok(number) => Outcome::Decided(number),
            Err(lost) => Outcome::Lost(lost),
        }
    }

    /// Takes the proposed number, where it is the next one.
    pub(crate) fn settle(&mut self, conn: u32) -> Result<Cid, Lost>
        requires enabled { IsEnabled self.old (Decide conn) }
        ensures answer { Answers self.old (Decide conn) (decide_outcome result) }
        ensures after { self.new ≡ after self.old (Decide conn) (decide_outcome result) }
    {
        let running = self.opened(conn);
        let (tid, ord, number) = (running.tid, running.ord, running.proposed);
        if number as usize != self.log.len() + 1 {
            let other = self.log[number as usize - 1].tid;
            return Err(self.conns[conn as usize].lose(conn, number, other));
        }
        let writes = self.conns[conn as usize].decide(self.alloc, conn, number);
        let commit = Commit {
            tid,
            conn,
            ord,
            writes,
        };
        let Ok(()) = self.log.push(commit) else {
            unreachable!()
        };
        Ok(Cid(number))
    }

    // Takes a put out.
    pub(crate) fn unput(&mut self, conn: u32, key: &[u8]) -> Outcome
        ensures answer { Answers self.old (Unput conn key.now) result }
        ensures after { self.new ≡ after self.old (Unput conn key.now) result }
    {
        if !self.may_unput(conn, key) {
            return Outcome::NotNow;
        }
        self.conns[conn as usize].unput(conn, key)
    }

    /// Adds the snapshot's last cell of a range to `out`, and tells whether there is one. What is read is the part from its
    /// key to the range's end, or the whole range.
    pub(crate) fn last(
        &mut self,
        alloc: Global,
        conn: u32,
        range: &Range,
        out: &mut Part,
    ) -> Result<bool, NoMemory>
        requires reading { WhenOpen (txns_of self.old conn) (λ t. t.id ≡ 0) }
        ensures last { IfOk result (λ some. HasLast conn range.now some self.old self.new out.old.cells out.new.cells) }
        ensures no_memory { OnErr result ((self.new ≡ self.old) × IsExtended out.old.cells out.new.cells) }
    {
        let mut cells = self.cells_in(alloc, conn, range)?;
        let Some(cell) = cells.pop() else {
            self.enter_read(conn, range, &[])?;
            return Ok(false);
        };
        let part = copy_part(alloc, cell.key.as_slice(), &range.hi)?;
        let count = out.cells.len();
        out.cells.push(cell)?;
        self.enter_read(conn, &part, &out.cells.as_slice()[count..])?;
        Ok(true)
    }

    /// Draws an id, and makes room for writes. Out of memory, and where no id is left, nothing has happened.
    pub(crate) fn reserve(
        &mut self,
        alloc: Global,
        conn: u32,
        ord: u32,
        writes: &[Write],
    ) -> Result<(), NoMemory>
        requires reading { WhenOpen (txns_of self.old conn) (λ t. t.id ≡ 0) }
        requires above { greatest_ord (txns_of self.old conn) < ord }
        requires short { AreShortKeys writes.now }
        ensures reserved { OnOk result (HasMadeRoom conn ord writes.now self.old self.new) }
        ensures no_memory { OnErr result (self.new ≡ self.old) }
    {
        if self.drawn == u32::MAX {
            return Err(AllocError);
        }
        let copies = copy_writes(alloc, writes)?;
        self.draw_next(conn, ord)?;
        self.make_room(conn, copies);
        Ok(())
    }

    // Draws the next id.
    fn draw_next(&mut self, conn: u32, ord: u32) -> Result<(), NoMemory>
        requires reading { WhenOpen (txns_of self.old conn) (λ t. t.id ≡ 0) }
        requires above { greatest_ord (txns_of self.old conn) < ord }
        requires left { self.old.drawn < 2 ^ 32 - 1 }
        ensures drawn { OnOk result (HasDrawn conn ord self.old self.new) }
        ensures no_memory { OnErr result (self.new ≡ self.old) }
    {
        self.see_sound();
        self.see_unweighed(conn);
        self.draw(conn, ord)?;
        Ok(())
    }

    // No room was made before an id is drawn.
    fn see_unweighed(&self, conn: u32)
        requires reading { WhenOpen (txns_of self.now conn) (λ t. t.id ≡ 0) }
        ensures { WhenOpen (txns_of self.now conn) (λ t. (t.id ≡ 0) × (t.weight ≡ None)) }
    {
        let _running = self.opened(conn);
    }

    // Makes room for the writes of a transaction that has drawn its id.
    fn make_room(&mut self, conn: u32, writes: Vec<Write>)
        requires open { WhenOpen (txns_of self.old conn) (λ t. (t.id ≢ 0) × (t.weight ≡ None) × (t.write_set ≡ [])) }
        requires short { AreShortKeys writes.items }
        ensures { self.new ≡ with_entry self.old conn (Reserved conn writes.items) }
    {
        self.conns[conn as usize].make_room(conn, writes);
    }

    /// Puts a write for which there is room, unless something is in its way.
    pub(crate) fn put_reserved(
        &mut self,
        conn: u32,
        key: &[u8],
        rec: Option<&[u8]>,
    ) -> Result<(), Met>
        requires reserved { WhenOpen (txns_of self.old conn) (MayPutReserved key.now (option_copied rec)) }
        ensures answer { Answers self.old (Put conn key.now (option_copied rec.entry)) (put_outcome result) }
        ensures after { self.new ≡ after self.old (Put conn key.now (option_copied rec.entry)) (put_outcome result) }
    {
        let snapshot = self.opened(conn).snapshot as usize;
        if let Some(met) = self.in_the_way(conn, snapshot, key) {
            self.conns[conn as usize].refuse_put(conn, key, rec, &met);
            return Err(met);
        }
        self.conns[conn as usize].put_reserved(conn, key, rec);
        Ok(())
    }

    /// Looks whether a commit between put a key of a part, and does not keep which part that was.
    pub(crate) fn check_unkept(
        &mut self,
        conn: u32,
        from: &[u8],
        upto: &Option<Bytes>,
    ) -> Result<(), Met>
        requires proposing { WhenOpen (txns_of self.old conn) (λ t. (t.proposed ≢ 0) × (t.weight ≢ None)) }
        ensures answer { Answers self.old (Check conn from.now upto.now) (put_outcome result) }
        ensures after { self.new ≡ after self.old (Check conn from.now upto.now) (put_outcome result) }
    {
        if let Some(met) = self.found(conn, from, upto) {
            self.conns[conn as usize].refuse_check(conn, from, upto, &met);
            return Err(met);
        }
        self.conns[conn as usize].check_unkept(conn, from, upto);
        Ok(())
    }

    // Ends a transaction.
    pub(crate) fn end(&mut self, conn: u32) -> Outcome
        ensures answer { Answers self.old (End conn) result }
        ensures after { self.new ≡ after self.old (End conn) result }
    {
        if !self.may_end(conn) {
            return Outcome::NotNow;
        }
        self.conns[conn as usize].end(conn)
    }
}

fn new_conns(alloc: Global, conns: u32) -> Result<Vec<Conn>, NoMemory>
    ensures { IfOk result (λ all. all.items ≡ replicate conns []) }
{
    let mut all = Vec::new(alloc);
    for number in 0..conns {
        all.push(Conn::new(alloc)?)?;
    }
    Ok(all)
}
