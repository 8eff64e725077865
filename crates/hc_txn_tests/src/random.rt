//! Many transactions of connection 1 on eight keys, while connection 2 commits between any two calls of the desk. The calls are
//! drawn by chance. Each answer is compared with a plain list of the snapshot's records and of the own writes, and each commit
//! and each refusal with the writes that the other connection committed above the snapshot.
ghost use Rattle.std.specs.Prelude.{◌≡◌, []};

use crate::lane::{Do, step};
use hc_core::{Core, Desk, Event, ListDesk, NoMemory, Outcome};
use hc_range::Bytes;
use hc_test_desks::{MeddledDesk, Turn};
use std::alloc::Global;
use std::process::Abort;
use std::test::Fail;

// The keys are single bytes from this one on.
const FIRST: u8 = 0x61;

const KEYS: u8 = 8;

// At each key a record of one byte: 0 is none.
#[derive(Debug, Clone, Copy, PartialEq, Eq)]
struct Row {
    recs: [u8; 8],
}

// In a row of writes: no write.
const UNTOUCHED: u8 = 0xff;

const NO_WRITES: Row = Row {
    recs: [UNTOUCHED; 8],
};

const NO_RECORDS: Row = Row { recs: [0; 8] };

const TRANSACTIONS: u32 = 250;

const OTHERS: u32 = 120;

// A linear congruential generator.
#[derive(Drop)]
struct Random {
    state: u32,
}

impl Random {
    // A number below another one, which is at least 1.
    fn below(&mut self, most: u32) -> u32 {
        self.state = self
            .state
            .wrapping_mul(1_664_525)
            .wrapping_add(1_013_904_223);
        (self.state >> 16).checked_rem(most).unwrap_or(0)
    }

    fn key(&mut self) -> u32 {
        self.below(u32::from(KEYS)).saturating_add(u32::from(FIRST))
    }

    // An upper end, or none.
    fn end(&mut self) -> u32 {
        match self.below(3) {
            0 => 0,
            _ => self.key(),
        }
    }

    // A record, or a tombstone.
    fn rec(&mut self) -> u32 {
        match self.below(4) {
            0 => 0,
            _ => self.below(6).saturating_add(1),
        }
    }

    fn name(&mut self) -> &'static str {
        match self.below(3) {
            0 => "a",
            1 => "A",
            _ => "b",
        }
    }

    // A call of an open transaction.
    fn call(&mut self) -> Do {
        match self.below(16) {
            0 | 1 => Do::Get(self.key()),
            2 => Do::Range(self.key(), self.end()),
            3 => Do::Last(self.key(), self.end()),
            4 | 5 | 6 | 7 | 8 => Do::Write(self.key(), self.rec()),
            9 => Do::Start,
            10 => Do::Keep,
            11 => Do::Undo,
            12 | 13 => Do::Mark(self.name()),
            14 => Do::UndoTo(self.name()),
            _ => Do::Release(self.name()),
        }
    }
}

// The calls of connection 1.
fn calls(alloc: Global, random: &mut Random) -> Result<Vec<Do>, NoMemory> {
    let mut calls = Vec::new(alloc);
    for _ in 0..TRANSACTIONS {
        calls.push(Do::Begin)?;
        for _ in 0..random.below(12) {
            calls.push(random.call())?;
        }
        let end = match random.below(8) {
            0 => Do::Rollback,
            _ => Do::Commit,
        };
        calls.push(end)?;
    }
    Ok(calls)
}

// A transaction of connection 2: what it writes, and its commit number, or 0.
#[derive(Debug, Clone, Copy)]
struct Other {
    writes: Row,
    number: u32,
}

// An event of connection 2, after it has waited some calls long.
fn push_event(turns: &mut Vec<Turn>, random: &mut Random, event: Event) -> Result<(), NoMemory> {
    for _ in 0..random.below(4) {
        turns.push(Turn::Wait)?;
    }
    turns.push(Turn::Make(event))?;
    Ok(())
}

// It puts some keys.
fn push_puts(
    alloc: Global,
    turns: &mut Vec<Turn>,
    random: &mut Random,
    other: &mut Other,
) -> Result<(), NoMemory> {
    for (place, rec) in other.writes.recs.iter_mut().enumerate() {
        if random.below(4) > 0 {
            continue;
        }
        *rec = u8::try_from(random.rec()).unwrap_or(0);
        let put = Event::Put {
            conn: 2,
            key: key_bytes(alloc, place)?,
            rec: match *rec {
                0 => None,
                rec => Some(Bytes::from_slice(alloc, &[rec])?),
            },
        };
        push_event(turns, random, put)?;
    }
    Ok(())
}

fn key_bytes(alloc: Global, place: usize) -> Result<Bytes, NoMemory> {
    Bytes::from_slice(
        alloc,
        &[u8::try_from(place).unwrap_or(0).saturating_add(FIRST)],
    )
}

// A transaction of connection 2. What may not be done is not done: where it is decided nothing is taken out.
fn push_other(
    alloc: Global,
    turns: &mut Vec<Turn>,
    random: &mut Random,
    ord: u32,
) -> Result<Other, NoMemory> {
    let mut other = Other {
        writes: NO_WRITES,
        number: 0,
    };
    push_event(turns, random, Event::Begin { conn: 2 })?;
    push_event(turns, random, Event::Draw { conn: 2, ord })?;
    push_puts(alloc, turns, random, &mut other)?;
    push_event(turns, random, Event::Propose { conn: 2 })?;
    push_event(turns, random, Event::Decide { conn: 2 })?;
    for (place, rec) in other.writes.recs.iter().enumerate() {
        if *rec != UNTOUCHED {
            let key = key_bytes(alloc, place)?;
            push_event(turns, random, Event::Unput { conn: 2, key })?;
        }
    }
    push_event(turns, random, Event::End { conn: 2 })?;
    Ok(other)
}

// Forgets the next write from a place on, where its put was refused, and answers the place after it.
fn settle_put(other: &mut Other, from: usize, is_refused: bool) -> usize {
    for (place, rec) in other.writes.recs.iter_mut().enumerate() {
        if place < from || *rec == UNTOUCHED {
            continue;
        }
        if is_refused {
            *rec = UNTOUCHED;
        }
        return place.saturating_add(1);
    }
    from
}

// Notes what the transactions of connection 2 put, and which were decided. Each has begun once, and puts after its draw.
fn note(others: &mut [Other], answers: &[Outcome]) {
    let mut begun: usize = 0;
    let mut puts = None;
    for answer in answers {
        if let Outcome::Began(_) = answer {
            begun = begun.saturating_add(1);
        }
        let Some(other) = others.get_mut(begun.saturating_sub(1)) else {
            continue;
        };
        puts = match (answer, puts) {
            (Outcome::Drew(_), _) => Some(0),
            (Outcome::Done, Some(from)) => Some(settle_put(other, from, false)),
            (Outcome::Met(_), Some(from)) => Some(settle_put(other, from, true)),
            _ => None,
        };
        if let Outcome::Decided(number) = answer {
            other.number = number.0;
        }
    }
}

// The answers to calls of connection 1.
fn played<D: Desk>(alloc: Global, desk: &mut D, calls: &[Do]) -> Result<Vec<String>, NoMemory>
    requires { D.account desk.old ≡ [] }
{
    let mut answers = Vec::new(alloc);
    let mut current = None;
    let mut ord: u32 = 1;
    for what in calls {
        if ord > 131071 {
            break;
        }
        let (next, text) = step(alloc, desk, current, ord, *what)?;
        current = next;
        ord += 1;
        answers.push(text)?;
    }
    Ok(answers)
}

// A transaction of connection 1, as plain lists. `own` has no write where it is untouched.
#[derive(Drop)]
struct Open {
    snapshot: u32,
    before: Row,
    own: Row,
    read: [bool; 8],
    // Whether the name is b, and the own writes as it was set. The innermost is last.
    marks: Vec<(bool, Row)>,
    statement: Option<Row>,
}

// Writes over records.
fn lay(row: &mut Row, over: &Row) {
    for (rec, other) in row.recs.iter_mut().zip(over.recs.iter()) {
        if *other != UNTOUCHED {
            *rec = *other;
        }
    }
}

// The records after some commits.
fn records(rows: &[Row], commits: u32) -> Row {
    let mut row = NO_RECORDS;
    for over in rows.iter().take((commits as usize).saturating_add(1)) {
        lay(&mut row, over);
    }
    row
}

fn rec_text(alloc: Global, rec: u8) -> Result<String, NoMemory> {
    match rec {
        0 => format!(in alloc; "none"),
        rec => format!(in alloc; "{rec:02x}"),
    }
}

fn is_within(key: u32, from: u32, upto: u32) -> bool {
    from <= key && (upto == 0 || key < upto)
}

fn key_at(place: usize) -> u32 {
    u32::try_from(place)
        .unwrap_or(u32::MAX)
        .saturating_add(u32::from(FIRST))
}

impl Open {
    fn new(alloc: Global, snapshot: u32, before: Row) -> Open {
        Open {
            snapshot,
            before,
            own: NO_WRITES,
            read: [false; 8],
            marks: Vec::new(alloc),
            statement: None,
        }
    }

    fn seen(&self) -> Row {
        let mut row = self.before;
        lay(&mut row, &self.own);
        row
    }

    fn get(&mut self, alloc: Global, key: u32) -> Result<String, NoMemory> {
        let mut text = String::new(alloc);
        for (place, rec) in self.seen().recs.iter().enumerate() {
            if key_at(place) == key {
                self.read[place & 7] = true;
                text = rec_text(alloc, *rec)?;
            }
        }
        Ok(text)
    }

    fn range(&mut self, alloc: Global, from: u32, upto: u32) -> Result<String, NoMemory> {
        let mut text = format!(in alloc; "cells")?;
        for (place, rec) in self.seen().recs.iter().enumerate() {
            let key = key_at(place);
            if !is_within(key, from, upto) {
                continue;
            }
            self.read[place & 7] = true;
            if *rec != 0 {
                text.push_str(format!(in alloc; " {key:02x}={rec:02x}")?.as_str())?;
            }
        }
        Ok(text)
    }

    // The range is read from its end down to the cell, and no further.
    fn last(&mut self, alloc: Global, from: u32, upto: u32) -> Result<String, NoMemory> {
        for (place, rec) in self.seen().recs.iter().enumerate().rev() {
            let key = key_at(place);
            if !is_within(key, from, upto) {
                continue;
            }
            self.read[place & 7] = true;
            if *rec != 0 {
                return format!(in alloc; "cells {key:02x}={rec:02x}");
            }
        }
        format!(in alloc; "no cell")
    }

    fn write(&mut self, key: u32, rec: u32) -> &'static str {
        for (place, own) in self.own.recs.iter_mut().enumerate() {
            if key_at(place) == key {
                *own = u8::try_from(rec).unwrap_or(0);
                self.read[place & 7] = true;
            }
        }
        "written"
    }

    // Keeps the marks up to the innermost of a name, and answers the own writes as it was set.
    fn leave_inner(&mut self, is_b: bool) -> Option<Row> {
        for _ in 0..self.marks.len() {
            let Some((other, own)) = self.marks.pop() else {
                return None;
            };
            if other == is_b {
                return Some(own);
            }
        }
        None
    }

    fn has_mark(&self, is_b: bool) -> bool {
        self.marks.iter().any(|mark| mark.0 == is_b)
    }

    fn undo_to(&mut self, is_b: bool) -> Result<&'static str, NoMemory> {
        if !self.has_mark(is_b) {
            return Ok("no such savepoint");
        }
        if let Some(own) = self.leave_inner(is_b) {
            self.own = own;
            self.marks.push((is_b, own))?;
        }
        self.statement = None;
        Ok("undone")
    }

    fn release(&mut self, is_b: bool) -> &'static str {
        if !self.has_mark(is_b) {
            return "no such savepoint";
        }
        self.leave_inner(is_b);
        self.statement = None;
        "released"
    }

    fn mark(&mut self, is_b: bool) -> Result<&'static str, NoMemory> {
        self.marks.push((is_b, self.own))?;
        self.statement = None;
        Ok("marked")
    }

    fn start(&mut self) -> &'static str {
        self.statement = Some(self.own);
        "done"
    }

    fn undo(&mut self) -> &'static str {
        if let Some(own) = self.statement {
            self.own = own;
        }
        self.keep()
    }

    fn keep(&mut self) -> &'static str {
        self.statement = None;
        "done"
    }

    fn answer(&mut self, alloc: Global, what: Do) -> Result<String, NoMemory> {
        let text = match what {
            Do::Get(key) => return self.get(alloc, key),
            Do::Range(from, upto) => return self.range(alloc, from, upto),
            Do::Last(from, upto) => return self.last(alloc, from, upto),
            Do::Write(key, rec) => self.write(key, rec),
            Do::Mark(name) => self.mark(name == "b")?,
            Do::UndoTo(name) => self.undo_to(name == "b")?,
            Do::Release(name) => self.release(name == "b"),
            Do::Start => self.start(),
            Do::Undo => self.undo(),
            _ => self.keep(),
        };
        format!(in alloc; "{text}")
    }

    // What is written and differs from the snapshot.
    fn net(&self) -> Row {
        let mut net = self.own;
        for (rec, before) in net.recs.iter_mut().zip(self.before.recs.iter()) {
            if *rec == *before {
                *rec = UNTOUCHED;
            }
        }
        net
    }

    // Whether a key that was read is among writes.
    fn has_read_any(&self, writes: &Row) -> bool {
        self.read
            .iter()
            .zip(writes.recs.iter())
            .any(|(read, rec)| *read && *rec != UNTOUCHED)
    }

    // Whether a refusal names a key that was read, and a transaction of connection 2 that wrote it, and is not in the snapshot.
    fn is_refused_by(
        &self,
        alloc: Global,
        ord: usize,
        other: &Other,
        text: &str,
    ) -> Result<bool, NoMemory> {
        if other.number != 0 && other.number <= self.snapshot {
            return Ok(false);
        }
        for (place, rec) in other.writes.recs.iter().enumerate() {
            if *rec == UNTOUCHED || !self.read[place & 7] {
                continue;
            }
            let key = key_at(place);
            let refusal = format!(in alloc;
                "met conn 2 ord {ord} key {key:02x}, rolled back {}",
                self.snapshot
            )?;
            if refusal.as_str() == text {
                return Ok(true);
            }
        }
        Ok(false)
    }

    fn is_refused(&self, alloc: Global, others: &[Other], text: &str) -> Result<bool, NoMemory> {
        let mut ord: usize = 1;
        for other in others {
            if self.is_refused_by(alloc, ord, other, text)? {
                return Ok(true);
            }
            ord = ord.saturating_add(1);
        }
        Ok(false)
    }
}

// How often a commit was answered so.
#[derive(Clone, Copy)]
struct Counts {
    commits: u32,
    snapshots: u32,
    refusals: u32,
}

// The commit number that an answer has, which is above the snapshot.
fn number_in(alloc: Global, snapshot: u32, most: usize, text: &str) -> Result<usize, NoMemory> {
    for number in (snapshot as usize).saturating_add(1)..most {
        if format!(in alloc; "commit {number}")?.as_str() == text {
            return Ok(number);
        }
    }
    Ok(0)
}

// Compares what a commit was answered. No commit between the snapshot and its number wrote what was read.
fn check_commit<R: Abort>(
    rt: &R,
    alloc: Global,
    rows: &mut Vec<Row>,
    others: &[Other],
    open: &Open,
    text: &str,
    counts: &mut Counts,
) -> Result<(), Fail> {
    let net = open.net();
    if net == NO_WRITES {
        let wanted = format!(in alloc; "snapshot {}", open.snapshot)?;
        assert_eq!(rt; text, wanted.as_str());
        counts.snapshots = counts.snapshots.saturating_add(1);
        return Ok(());
    }
    let number = number_in(alloc, open.snapshot, rows.len(), text)?;
    if number == 0 {
        assert!(rt; open.is_refused(alloc, others, text)?, "{text}");
        counts.refusals = counts.refusals.saturating_add(1);
        return Ok(());
    }
    let mut place: usize = 0;
    for row in rows.iter_mut() {
        if place > open.snapshot as usize && place < number {
            assert!(rt; !open.has_read_any(row));
        }
        if place == number {
            assert!(rt; *row == NO_WRITES);
            *row = net;
        }
        place = place.saturating_add(1);
    }
    counts.commits = counts.commits.saturating_add(1);
    Ok(())
}

// The snapshot that an answer has.
fn began(alloc: Global, most: usize, text: &str) -> Result<u32, NoMemory> {
    for number in 0..most {
        if format!(in alloc; "began {number}")?.as_str() == text {
            return Ok(u32::try_from(number).unwrap_or(u32::MAX));
        }
    }
    Ok(u32::MAX)
}

// Compares the answers of all calls of connection 1.
fn check<R: Abort>(
    rt: &R,
    alloc: Global,
    rows: &mut Vec<Row>,
    others: &[Other],
    calls: &[Do],
    answers: &[String],
) -> Result<Counts, Fail> {
    let mut counts = Counts {
        commits: 0,
        snapshots: 0,
        refusals: 0,
    };
    let mut open = Open::new(alloc, 0, NO_RECORDS);
    for (what, text) in calls.iter().zip(answers.iter()) {
        match *what {
            Do::Begin => {
                let snapshot = began(alloc, rows.len(), text.as_str())?;
                assert!(rt; snapshot >= open.snapshot && snapshot != u32::MAX, "{text}");
                open = Open::new(alloc, snapshot, records(rows.as_slice(), snapshot));
            }
            Do::Commit => check_commit(rt, alloc, rows, others, &open, text.as_str(), &mut counts)?,
            Do::Rollback => {
                let wanted = format!(in alloc; "rolled back {}", open.snapshot)?;
                assert_eq!(rt; text.as_str(), wanted.as_str());
            }
            what => {
                let wanted = open.answer(alloc, what)?;
                assert_eq!(rt; text.as_str(), wanted.as_str());
            }
        }
    }
    Ok(counts)
}

// Connection 2's transactions, and its events.
fn make_others(
    alloc: Global,
    random: &mut Random,
    turns: &mut Vec<Turn>,
) -> Result<Vec<Other>, NoMemory> {
    let mut others = Vec::new(alloc);
    for place in 0..OTHERS {
        others.push(push_other(alloc, turns, random, place.saturating_add(1))?)?;
    }
    Ok(others)
}

// By commit number: what the commits of connection 2 wrote.
fn rows_of(alloc: Global, others: &[Other]) -> Result<Vec<Row>, NoMemory> {
    let mut rows = Vec::new(alloc);
    for _ in 0..OTHERS.saturating_add(TRANSACTIONS).saturating_add(1) {
        rows.push(NO_WRITES)?;
    }
    for other in others {
        if other.number == 0 {
            continue;
        }
        if let Some(row) = rows.get_mut(other.number as usize) {
            *row = other.writes;
        }
    }
    Ok(rows)
}

#[test]
fn transactions_drawn_by_chance_see_plain_lists(rt: HostRuntime) -> Result<(), Fail> {
    let alloc = rt.alloc();
    let mut random = Random { state: 7 };
    let mut calls = calls(alloc, &mut random)?;
    for what in [Do::Begin, Do::Range(0x60, 0), Do::Rollback] {
        calls.push(what)?;
    }
    let mut turns = Vec::new(alloc);
    let mut others = make_others(alloc, &mut random, &mut turns)?;
    let mut core = Core::new(alloc, 3)?;
    assert!(&rt; core.takes_desk(1));
    let list = ListDesk {
        core: &mut core,
        conn: 1,
    };
    let Some(mut desk) = MeddledDesk::new(alloc, list, 2, turns) else {
        assert!(&rt; false);
        return Ok(());
    };
    let answers = played(alloc, &mut desk, calls.as_slice())?;
    note(others.as_mut_slice(), desk.answers.as_slice());
    let mut rows = rows_of(alloc, others.as_slice())?;
    let counts = check(
        &rt,
        alloc,
        &mut rows,
        others.as_slice(),
        calls.as_slice(),
        answers.as_slice(),
    )?;
    let committed = others.iter().filter(|other| other.number != 0).count();
    // Each kind of answer has come often.
    assert!(&rt;
        counts.commits > 40 && counts.snapshots > 20 && counts.refusals > 40 && committed > 60,
        "{} {} {} {committed}",
        counts.commits,
        counts.snapshots,
        counts.refusals
    );
    Ok(())
}
