ghost use Rattle.std.specs.Prelude.{◌≡◌, ℕ, List, [], IsTrue, IfOk, OnOk};
ghost use Rattle.hc_core.specs.Account.{HoldsKey, part_of, without};
ghost use Rattle.hc_core.specs.Desk.{GoesOn, end_of};
ghost use Rattle.hc_core.specs.Running.{holds_key};
ghost use Rattle.hc_base.specs.Lookup.{Among};
ghost use Rattle.hc_core.specs.declared.cells.Write.{Write};
ghost use Rattle.hc_test_desks.specs.Guarded.{IsGuarded};

use crate::phases::{may_be_reserved, put};
use hc_base::Cid;
use hc_core::{Desk, Lost, Met, Next, NoMemory, Part, ReserveFault, Write};
use hc_range::{Bytes, Range, ReadLog, contains};
use hc_reads::includes_all;
use std::alloc::Global;
use std::mem::replace;

/// Where a connection's open transaction is.
#[derive(Debug, Clone, Copy, PartialEq, Eq)]
pub enum Stage {
    /// None is open.
    Idle,
    /// It may read.
    Reading,
    /// It has room for its writes, and may put them.
    Writing,
    /// It proposes a number.
    Proposing,
    /// It has its number.
    Decided,
    /// Something of the store has run out.
    Full,
}

/// What is known of a connection's open transaction by the calls of its desk. It makes those calls of a desk that may be
/// made, and answers nothing to others.
#[derive(Drop)]
pub struct Guard {
    stage: Stage,
    ord: u32,
    reads: ReadLog,
    checked: ReadLog,
    reserved: Vec<Write>,
    put: Vec<Write>,
}

/// What a call of a guard answers.
#[derive(Debug, Clone, Copy, PartialEq, Eq)]
pub enum Answer {
    /// The call may not be made now, and was not made.
    NotNow,
    /// It is done.
    Done,
    /// The snapshot.
    Began(Cid),
    /// How far was read.
    Read(Next),
    /// Whether there is a last cell.
    Last(bool),
    /// No room was made for the writes.
    NoRoom(ReserveFault),
    /// Another transaction is in the way.
    Met(Met),
    /// The number that is proposed.
    Proposed(Cid),
    /// How far was checked.
    Checked(Next),
    /// The number of the commit.
    Decided(Cid),
    /// Another transaction has the number.
    Lost(Lost),
}

impl Guard {
    /// A guard of a connection that has no transaction yet.
    pub fn new(alloc: Global) -> Guard
        ensures { IsGuarded result [] }
    {
        Guard {
            stage: Stage::Idle,
            ord: 0,
            reads: ReadLog::new(alloc),
            checked: ReadLog::new(alloc),
            reserved: Vec::new(alloc),
            put: Vec::new(alloc),
        }
    }

    /// Opens a transaction, where none is open.
    pub fn begin<D: Desk>(&mut self, desk: &mut D) -> Answer
        requires { IsGuarded self.old (D.account desk.old) }
        ensures guarded { IsGuarded self.new (D.account desk.new) }
        ensures on { GoesOn D.conn D.most D.seen D.later desk.old desk.new }
    {
        let Stage::Idle = self.stage else {
            return Answer::NotNow;
        };
        let snapshot = desk.begin();
        self.reads.clear();
        self.checked.clear();
        self.reserved.clear();
        self.put.clear();
        self.stage = Stage::Reading;
        Answer::Began(snapshot)
    }

    /// Reads a range from a key in it on, before an id is drawn.
    pub fn read_part<D: Desk>(
        &mut self,
        desk: &mut D,
        alloc: Global,
        from: &[u8],
        range: &Range,
        out: &mut Part,
    ) -> Result<Answer, NoMemory>
        requires { IsGuarded self.old (D.account desk.old) }
        ensures guarded { OnOk result (IsGuarded self.new (D.account desk.new)) }
        ensures on { GoesOn D.conn D.most D.seen D.later desk.old desk.new }
    {
        let Stage::Reading = self.stage else {
            return Ok(Answer::NotNow);
        };
        if !contains(range, from) {
            return Ok(Answer::NotNow);
        }
        let next = desk.read_part(alloc, from, range, out)?;
        let part = part_up_to(alloc, from, range, &next)?;
        self.reads.add(&part)?;
        Ok(Answer::Read(next))
    }

    /// Reads the last cell of a range, before an id is drawn.
    pub fn last<D: Desk>(
        &mut self,
        desk: &mut D,
        alloc: Global,
        range: &Range,
        out: &mut Part,
    ) -> Result<Answer, NoMemory>
        requires { IsGuarded self.old (D.account desk.old) }
        ensures guarded { OnOk result (IsGuarded self.new (D.account desk.new)) }
        ensures on { GoesOn D.conn D.most D.seen D.later desk.old desk.new }
    {
        let Stage::Reading = self.stage else {
            return Ok(Answer::NotNow);
        };
        let some = desk.last(alloc, range, out)?;
        if !some {
            self.reads.add(range)?;
            return Ok(Answer::Last(false));
        }
        let Some(cell) = out.cells.as_slice().last() else {
            unreachable!()
        };
        let part = part_up_to(alloc, cell.key.as_slice(), range, &Next::End)?;
        self.reads.add(&part)?;
        Ok(Answer::Last(true))
    }

    /// Makes room for writes in ascending order of keys, with an ordinal above those before.
    pub fn reserve<D: Desk>(
        &mut self,
        desk: &mut D,
        alloc: Global,
        ord: u32,
        writes: Vec<Write>,
    ) -> Answer
        requires { IsGuarded self.old (D.account desk.old) }
        ensures guarded { IsGuarded self.new (D.account desk.new) }
        ensures on { GoesOn D.conn D.most D.seen D.later desk.old desk.new }
    {
        let Stage::Reading = self.stage else {
            return Answer::NotNow;
        };
        if ord <= self.ord || ord > 131071 || !may_be_reserved(writes.as_slice()) {
            return Answer::NotNow;
        }
        match desk.reserve(alloc, ord, writes.as_slice()) {
            Ok(()) => {
                self.ord = ord;
                self.reserved = writes;
                self.stage = Stage::Writing;
                Answer::Done
            }
            Err(ReserveFault::NoMemory) => Answer::NoRoom(ReserveFault::NoMemory),
            Err(ReserveFault::Full(full)) => {
                self.ord = ord;
                self.stage = Stage::Full;
                Answer::NoRoom(ReserveFault::Full(full))
            }
        }
    }

    /// Puts the write at a place of those for which there is room.
    pub fn put<D: Desk>(
        &mut self,
        desk: &mut D,
        alloc: Global,
        place: usize,
    ) -> Result<Answer, NoMemory>
        requires { IsGuarded self.old (D.account desk.old) }
        ensures guarded { OnOk result (IsGuarded self.new (D.account desk.new)) }
        ensures on { GoesOn D.conn D.most D.seen D.later desk.old desk.new }
    {
        let Stage::Writing = self.stage else {
            return Ok(Answer::NotNow);
        };
        if place >= self.reserved.len() {
            return Ok(Answer::NotNow);
        }
        let write = &self.reserved[place];
        if has_key(self.put.as_slice(), write.key.as_slice()) {
            return Ok(Answer::NotNow);
        }
        let copy = copy_write(alloc, write)?;
        match put(desk, write) {
            Ok(()) => {
                self.put.insert(0, copy)?;
                Ok(Answer::Done)
            }
            Err(met) => Ok(Answer::Met(met)),
        }
    }

    /// Proposes a number, where all is put.
    pub fn propose<D: Desk>(&mut self, desk: &mut D) -> Answer
        requires { IsGuarded self.old (D.account desk.old) }
        ensures guarded { IsGuarded self.new (D.account desk.new) }
        ensures on { GoesOn D.conn D.most D.seen D.later desk.old desk.new }
    {
        let (Stage::Writing | Stage::Proposing) = self.stage else {
            return Answer::NotNow;
        };
        if !are_all_put(self.reserved.as_slice(), self.put.as_slice()) {
            return Answer::NotNow;
        }
        let number = desk.propose();
        self.checked.clear();
        self.stage = Stage::Proposing;
        Answer::Proposed(number)
    }

    /// Checks a range from a key in it on, while a number is proposed.
    pub fn check_part<D: Desk>(
        &mut self,
        desk: &mut D,
        alloc: Global,
        from: &[u8],
        range: &Range,
    ) -> Result<Answer, NoMemory>
        requires { IsGuarded self.old (D.account desk.old) }
        ensures guarded { OnOk result (IsGuarded self.new (D.account desk.new)) }
        ensures on { GoesOn D.conn D.most D.seen D.later desk.old desk.new }
    {
        let Stage::Proposing = self.stage else {
            return Ok(Answer::NotNow);
        };
        if !contains(range, from) {
            return Ok(Answer::NotNow);
        }
        match desk.check_part(from, range) {
            Ok(next) => {
                let part = part_up_to(alloc, from, range, &next)?;
                self.checked.add(&part)?;
                Ok(Answer::Checked(next))
            }
            Err(met) => Ok(Answer::Met(met)),
        }
    }

    /// Takes the proposed number, where all that was read is checked for it.
    pub fn decide<D: Desk>(&mut self, desk: &mut D) -> Answer
        requires { IsGuarded self.old (D.account desk.old) }
        ensures guarded { IsGuarded self.new (D.account desk.new) }
        ensures on { GoesOn D.conn D.most D.seen D.later desk.old desk.new }
    {
        let Stage::Proposing = self.stage else {
            return Answer::NotNow;
        };
        if !includes_all(&self.checked, self.reads.ranges()) {
            return Answer::NotNow;
        }
        match desk.decide() {
            Ok(number) => {
                self.stage = Stage::Decided;
                Answer::Decided(number)
            }
            Err(lost) => {
                self.checked.clear();
                self.stage = Stage::Writing;
                Answer::Lost(lost)
            }
        }
    }

    /// Takes a put back, where the key is put.
    pub fn unput<D: Desk>(
        &mut self,
        desk: &mut D,
        alloc: Global,
        key: &[u8],
    ) -> Result<Answer, NoMemory>
        requires { IsGuarded self.old (D.account desk.old) }
        ensures guarded { OnOk result (IsGuarded self.new (D.account desk.new)) }
        ensures on { GoesOn D.conn D.most D.seen D.later desk.old desk.new }
    {
        let (Stage::Writing | Stage::Proposing) = self.stage else {
            return Ok(Answer::NotNow);
        };
        if !has_key(self.put.as_slice(), key) {
            return Ok(Answer::NotNow);
        }
        desk.unput(key);
        let put = replace(&mut self.put, Vec::new(alloc));
        self.put = all_but(alloc, put, key)?;
        Ok(Answer::Done)
    }

    /// Ends the transaction, where it is decided or nothing is put.
    pub fn end<D: Desk>(&mut self, desk: &mut D) -> Answer
        requires { IsGuarded self.old (D.account desk.old) }
        ensures guarded { IsGuarded self.new (D.account desk.new) }
        ensures on { GoesOn D.conn D.most D.seen D.later desk.old desk.new }
    {
        if self.stage == Stage::Idle {
            return Answer::NotNow;
        }
        if self.stage != Stage::Decided && !self.put.is_empty() {
            return Answer::NotNow;
        }
        desk.end();
        self.stage = Stage::Idle;
        Answer::Done
    }
}

// The part from a key up to where a call stopped in a range.
fn part_up_to(alloc: Global, from: &[u8], range: &Range, next: &Next) -> Result<Range, NoMemory>
    ensures { IfOk result (λ part. part ≡ part_of from.now (end_of range.now next.now)) }
{
    let lo = Bytes::from_slice(alloc, from)?;
    let hi = match next {
        Next::More(key) => Some(Bytes::from_slice(alloc, key.as_slice())?),
        Next::End => match &range.hi {
            Some(end) => Some(Bytes::from_slice(alloc, end.as_slice())?),
            None => None,
        },
    };
    Ok(Range { lo, hi })
}

fn copy_write(alloc: Global, write: &Write) -> Result<Write, NoMemory>
    ensures { IfOk result (λ copy. copy ≡ write.now) }
{
    let key = Bytes::from_slice(alloc, write.key.as_slice())?;
    let rec = match &write.rec {
        Some(rec) => Some(Bytes::from_slice(alloc, rec.as_slice())?),
        None => None,
    };
    Ok(Write { key, rec })
}

// The writes but those of a key.
fn all_but(alloc: Global, writes: Vec<Write>, key: &[u8]) -> Result<Vec<Write>, NoMemory>
    ensures { IfOk result (λ others. others.items ≡ without key.now writes.items) }
{
    let mut others = Vec::new(alloc);
    for write in writes {
        if write.key.as_slice() != key {
            others.push(write)?;
        }
    }
    Ok(others)
}

// Whether a key is among writes.
fn has_key(writes: &[Write], key: &[u8]) -> bool
    ensures { result ≡ holds_key key.now writes.now }
{
    writes.iter().any(|write| write.key.as_slice() == key)
}

// Whether each of the writes is put.
fn are_all_put(writes: &[Write], put: &[Write]) -> bool
    ensures { IsTrue result → (w : Write) → Among w writes.now → HoldsKey put.now w.key }
{
    for write in writes {
        if !has_key(put, write.key.as_slice()) {
            return false;
        }
    }
    true
}
