//! Random lists of events, whose answers are compared with those that a search over the whole history finds. The history is
//! folded into transactions anew for each event, and nothing else is kept.
use crate::machine::{Do, answer, event};
use hc_core::{EventMachine, NoMemory};
use std::alloc::Global;
use std::process::Abort;
use std::test::Fail;

// What an event was answered, as far as what follows needs it.
#[derive(Debug, Clone, Copy, PartialEq, Eq)]
enum Said {
    Number(u32),
    Done,
    Refused,
}

#[derive(Clone, Copy)]
struct Past {
    what: Do,
    said: Said,
}

// A transaction, by the events of its connection. 0 says that there is no such number yet, and a record of 0 is a tombstone.
#[derive(Drop)]
struct Txn {
    conn: u32,
    id: u32,
    ord: u32,
    snapshot: u32,
    proposed: u32,
    place: u32,
    ended: bool,
    reads: Vec<(u32, u32)>,
    checked: Vec<(u32, u32)>,
    writes: Vec<(u32, u32)>,
}

// The keys and the bytes past them; a part without an upper end goes up to the last of these.
const FIRST_KEY: u32 = 0x61;

const PAST_KEYS: u32 = 0x67;

fn conn_of(what: Do) -> Option<u32> {
    match what {
        Do::Begin(conn)
        | Do::Draw(conn, _)
        | Do::Read(conn, _, _)
        | Do::Put(conn, _, _)
        | Do::PutEmpty(conn, _)
        | Do::PutTombstone(conn, _)
        | Do::Propose(conn)
        | Do::Check(conn, _, _)
        | Do::Decide(conn)
        | Do::Unput(conn, _)
        | Do::End(conn) => Some(conn),
        Do::Purge(_) => None,
    }
}

fn enter(t: &mut Txn, past: &Past) -> Result<(), NoMemory> {
    match (past.what, past.said) {
        (Do::Draw(_, ord), Said::Number(id)) => {
            t.id = id;
            t.ord = ord;
        }
        (Do::Read(_, from, upto), Said::Done) => t.reads.push((from, upto))?,
        (Do::Put(_, key, rec), Said::Done) => t.writes.push((key, rec))?,
        (Do::PutTombstone(_, key), Said::Done) => t.writes.push((key, 0))?,
        (Do::Propose(_), Said::Number(number)) => {
            t.proposed = number;
            t.checked.clear();
        }
        (Do::Check(_, from, upto), Said::Done) => t.checked.push((from, upto))?,
        (Do::Decide(_), Said::Number(number)) => t.place = number,
        (Do::Decide(_), Said::Refused) => {
            t.proposed = 0;
            t.checked.clear();
        }
        (Do::Unput(_, key), Said::Done) => t.writes.retain(|write| write.0 != key),
        (Do::End(_), Said::Done) => t.ended = true,
        _ => {}
    }
    Ok(())
}

// The transactions of a history.
fn txns(alloc: Global, history: &[Past]) -> Result<Vec<Txn>, NoMemory> {
    let mut all: Vec<Txn> = Vec::new(alloc);
    for past in history {
        if let (Do::Begin(conn), Said::Number(snapshot)) = (past.what, past.said) {
            all.push(Txn {
                conn,
                id: 0,
                ord: 0,
                snapshot,
                proposed: 0,
                place: 0,
                ended: false,
                reads: Vec::new(alloc),
                checked: Vec::new(alloc),
                writes: Vec::new(alloc),
            })?;
            continue;
        }
        for t in all.as_mut_slice() {
            if conn_of(past.what) == Some(t.conn) && !t.ended {
                enter(t, past)?;
            }
        }
    }
    Ok(all)
}

fn open_of(all: &[Txn], conn: u32) -> Option<&Txn> {
    for t in all {
        if t.conn == conn && !t.ended {
            return Some(t);
        }
    }
    None
}

// The record that a transaction puts at a key.
fn put_at(t: &Txn, key: u32) -> Option<u32> {
    for write in t.writes.as_slice() {
        if write.0 == key {
            return Some(write.1);
        }
    }
    None
}

// The newest commit that put a key, above a commit number and up to another one.
fn newest_with(all: &[Txn], key: u32, above: u32, upto: u32) -> Option<&Txn> {
    let mut newest: Option<&Txn> = None;
    for t in all {
        if t.place <= above || t.place > upto || put_at(t, key).is_none() {
            continue;
        }
        newest = match newest {
            Some(best) if best.place > t.place => Some(best),
            _ => Some(t),
        };
    }
    newest
}

// An undecided transaction that put a key, of a connection other than this one.
fn undecided_with(all: &[Txn], key: u32, conn: Option<u32>) -> Option<&Txn> {
    for t in all {
        if !t.ended && t.place == 0 && Some(t.conn) != conn && put_at(t, key).is_some() {
            return Some(t);
        }
    }
    None
}

fn is_in(key: u32, from: u32, upto: u32) -> bool {
    from <= key && (upto == 0 || key < upto)
}

// Whether each key of a part lies in one of the others.
fn is_within(part: &(u32, u32), parts: &[(u32, u32)]) -> bool {
    for key in FIRST_KEY..PAST_KEYS + 1 {
        if is_in(key, part.0, part.1) && !parts.iter().any(|other| is_in(key, other.0, other.1)) {
            return false;
        }
    }
    true
}

fn are_checked(t: &Txn) -> bool {
    for part in t.reads.as_slice() {
        if !is_within(part, t.checked.as_slice()) {
            return false;
        }
    }
    true
}

fn commits(all: &[Txn]) -> u32 {
    let mut most = 0;
    for t in all {
        most = most.max(t.place);
    }
    most
}

fn not_now(alloc: Global) -> Result<(String, Said), Fail> {
    Ok((format!(in alloc; "not now")?, Said::Refused))
}

fn done(alloc: Global) -> Result<(String, Said), Fail> {
    Ok((format!(in alloc; "done")?, Said::Done))
}

fn met(alloc: Global, other: &Txn, key: u32) -> Result<(String, Said), Fail> {
    let text = format!(in alloc;
        "met {} of {}.{} at {key:02x}",
        other.id, other.conn, other.ord
    )?;
    Ok((text, Said::Refused))
}

fn cells(alloc: Global, all: &[Txn], t: &Txn, from: u32, upto: u32) -> Result<String, Fail> {
    let mut text = format!(in alloc; "cells")?;
    for key in FIRST_KEY..PAST_KEYS {
        if !is_in(key, from, upto) {
            continue;
        }
        let Some(newest) = newest_with(all, key, 0, t.snapshot) else {
            continue;
        };
        if let Some(rec) = put_at(newest, key) {
            if rec != 0 {
                text.push_str(format!(in alloc; " {key:02x}={rec:02x}")?.as_str())?;
            }
        }
    }
    Ok(text)
}

fn begin(alloc: Global, all: &[Txn], conn: u32) -> Result<(String, Said), Fail> {
    if conn >= CONNS || open_of(all, conn).is_some() {
        return not_now(alloc);
    }
    let snapshot = commits(all);
    Ok((
        format!(in alloc; "began {snapshot}")?,
        Said::Number(snapshot),
    ))
}

fn draw(alloc: Global, all: &[Txn], t: &Txn, ord: u32) -> Result<(String, Said), Fail> {
    let mut last = 0;
    let mut id: u32 = 0;
    for other in all {
        id = id.max(other.id);
        if other.conn == t.conn {
            last = last.max(other.ord);
        }
    }
    if t.id != 0 || ord <= last {
        return not_now(alloc);
    }
    let id = id.saturating_add(1);
    Ok((format!(in alloc; "drew {id}")?, Said::Number(id)))
}

fn put(alloc: Global, all: &[Txn], t: &Txn, key: u32) -> Result<(String, Said), Fail> {
    if t.id == 0 || t.place != 0 || t.proposed != 0 || put_at(t, key).is_some() {
        return not_now(alloc);
    }
    if let Some(other) = undecided_with(all, key, Some(t.conn)) {
        return met(alloc, other, key);
    }
    match newest_with(all, key, t.snapshot, u32::MAX) {
        Some(other) => met(alloc, other, key),
        None => done(alloc),
    }
}

fn check(
    alloc: Global,
    all: &[Txn],
    t: &Txn,
    from: u32,
    upto: u32,
) -> Result<(String, Said), Fail> {
    if t.proposed == 0 {
        return not_now(alloc);
    }
    for key in FIRST_KEY..PAST_KEYS {
        if !is_in(key, from, upto) {
            continue;
        }
        if let Some(other) = newest_with(all, key, t.snapshot, t.proposed.saturating_sub(1)) {
            return met(alloc, other, key);
        }
    }
    done(alloc)
}

fn decide(alloc: Global, all: &[Txn], t: &Txn) -> Result<(String, Said), Fail> {
    if t.proposed == 0 || t.place != 0 || !are_checked(t) {
        return not_now(alloc);
    }
    for other in all {
        if other.place == t.proposed {
            let text = format!(in alloc; "lost {} to {}", t.proposed, other.id)?;
            return Ok((text, Said::Refused));
        }
    }
    Ok((
        format!(in alloc; "decided {}", t.proposed)?,
        Said::Number(t.proposed),
    ))
}

fn purge(alloc: Global, all: &[Txn], key: u32) -> Result<(String, Said), Fail> {
    let Some(newest) = newest_with(all, key, 0, u32::MAX) else {
        return not_now(alloc);
    };
    let is_seen = all.iter().all(|t| t.ended || newest.place <= t.snapshot);
    if undecided_with(all, key, None).is_some() || put_at(newest, key) != Some(0) || !is_seen {
        return not_now(alloc);
    }
    done(alloc)
}

// The answer of the table, found in the whole history.
fn found(alloc: Global, history: &[Past], what: Do) -> Result<(String, Said), Fail> {
    let all = txns(alloc, history)?;
    let all = all.as_slice();
    if let Do::Begin(conn) = what {
        return begin(alloc, all, conn);
    }
    if let Do::Purge(key) = what {
        return purge(alloc, all, key);
    }
    let Some(conn) = conn_of(what) else {
        return not_now(alloc);
    };
    let Some(t) = open_of(all, conn) else {
        return not_now(alloc);
    };
    match what {
        Do::Draw(_, ord) => draw(alloc, all, t, ord),
        Do::Read(_, from, upto) if t.id == 0 => {
            Ok((cells(alloc, all, t, from, upto)?, Said::Done))
        }
        Do::Put(_, key, _) | Do::PutTombstone(_, key) => put(alloc, all, t, key),
        Do::Propose(_) if t.id != 0 && t.place == 0 => {
            let number = commits(all).saturating_add(1);
            Ok((
                format!(in alloc; "proposed {number}")?,
                Said::Number(number),
            ))
        }
        Do::Check(_, from, upto) => check(alloc, all, t, from, upto),
        Do::Decide(_) => decide(alloc, all, t),
        Do::Unput(_, key) if t.place == 0 && put_at(t, key).is_some() => done(alloc),
        Do::End(_) if t.place != 0 || t.writes.is_empty() => done(alloc),
        _ => not_now(alloc),
    }
}

const CONNS: u32 = 3;

const LISTS: u32 = 40;

const EVENTS: u32 = 120;

// A linear congruential generator.
#[derive(Drop)]
struct Random {
    state: u32,
}

impl Random {
    // A number below another one, which is at least 1.
    fn below(&mut self, most: u32) -> u32 {
        self.state = self
            .state
            .wrapping_mul(1_664_525)
            .wrapping_add(1_013_904_223);
        (self.state >> 16).checked_rem(most).unwrap_or(0)
    }

    fn key(&mut self) -> u32 {
        FIRST_KEY.saturating_add(self.below(6))
    }

    // An upper end, or none.
    fn end(&mut self) -> u32 {
        match self.below(2) {
            0 => 0,
            _ => self.key(),
        }
    }

    // An event, of which those come more often that let a transaction go on.
    fn event(&mut self, turn: u32) -> Do {
        let conn = self.below(CONNS);
        match self.below(22) {
            0 | 1 | 2 => Do::Begin(conn),
            3 | 4 | 5 => Do::Draw(conn, turn.saturating_add(1)),
            6 | 7 => Do::Read(conn, self.key(), self.end()),
            8 | 9 | 10 => Do::Put(conn, self.key(), self.below(200).saturating_add(1)),
            11 => Do::PutTombstone(conn, self.key()),
            12 | 13 => Do::Propose(conn),
            14 | 15 => Do::Check(conn, FIRST_KEY, self.end()),
            16 | 17 => Do::Decide(conn),
            18 => Do::Unput(conn, self.key()),
            19 | 20 => Do::End(conn),
            _ => Do::Purge(self.key()),
        }
    }
}

// How often answers of some kinds came.
#[derive(Clone, Copy)]
struct Counts {
    met: u32,
    lost: u32,
    decided: u32,
    purged: u32,
}

impl Counts {
    fn add(&mut self, what: Do, said: Said, text: &str) {
        self.met = self.met.saturating_add(u32::from(text.starts_with("met")));
        self.lost = self
            .lost
            .saturating_add(u32::from(text.starts_with("lost")));
        self.decided = self
            .decided
            .saturating_add(u32::from(text.starts_with("decided")));
        if let (Do::Purge(_), Said::Done) = (what, said) {
            self.purged = self.purged.saturating_add(1);
        }
    }
}

// Compares the answers to one event, and notes it in the history.
fn compare<R: Abort>(
    rt: &R,
    alloc: Global,
    machine: &mut EventMachine,
    history: &mut Vec<Past>,
    what: Do,
    counts: &mut Counts,
) -> Result<(), Fail> {
    let (wanted, said) = found(alloc, history.as_slice(), what)?;
    let outcome = machine.step(&event(alloc, what)?)?;
    assert_eq!(rt; answer(alloc, &outcome)?.as_str(), wanted.as_str());
    counts.add(what, said, wanted.as_str());
    if wanted.as_str() != "not now" {
        history.push(Past { what, said })?;
    }
    Ok(())
}

fn run_list<R: Abort>(rt: &R, alloc: Global, list: u32, counts: &mut Counts) -> Result<(), Fail> {
    let mut random = Random { state: list };
    let mut machine = EventMachine::new(alloc, CONNS)?;
    let mut history: Vec<Past> = Vec::new(alloc);
    for turn in 0..EVENTS {
        let what = random.event(turn);
        compare(rt, alloc, &mut machine, &mut history, what, counts)?;
    }
    Ok(())
}

#[test]
fn random_events_are_answered_as_a_search_of_the_history_finds(
    rt: HostRuntime,
) -> Result<(), Fail> {
    let alloc = rt.alloc();
    let mut counts = Counts {
        met: 0,
        lost: 0,
        decided: 0,
        purged: 0,
    };
    for list in 0..LISTS {
        run_list(&rt, alloc, list, &mut counts)?;
    }
    // Each kind of answer has come.
    assert!(&rt; counts.met > 10 && counts.lost > 0 && counts.decided > 20 && counts.purged > 0);
    Ok(())
}
