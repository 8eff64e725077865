// The writes of a transaction: those that are put, and those for which there is room alone.
ghost use Rattle.std.specs.Prelude.{◌≡◌, [], ◌∷◌, ◌++◌, true, false, IfOk, OnOk, OnErr, MatchOption, None, position};
ghost use Rattle.std.specs.Option.{option_copied};
ghost use Rattle.hc_core.specs.Account.{without};
ghost use Rattle.hc_base.specs.Lookup.{Among};
ghost use Rattle.hc_core.specs.Running.{HaveSameWrites, holds_key};
ghost use Rattle.hc_core.specs.WriteSet.{HasAllOf, IsHeldIn, IsKeyAt, IsWriteAt, is_of_key, is_same_rec, is_write};

use crate::copying::copy_write;
use crate::running::has_key;
use crate::{NoMemory, Write};
use hc_range::Bytes;
use std::alloc::Global;
use std::marker::Model;

/// Writes of a transaction. Those at the front are put: they are its write set. For the others there is room alone, so
/// that to put one of them, or to take a put back, takes no memory.
#[derive(Drop)]
pub struct WriteSet {
    writes: Vec<Write>,
    put: usize,
}

impl Model for WriteSet {
    ghost use Rattle.std.specs.Prelude.{◌≤◌, length, take};
    ghost use Rattle.hc_core.specs.Sound.{HasEachOnce};
    ghost use Rattle.hc_core.specs.WriteSet.{Held};

    ghost Value = { Held };

    ghost view = { λ set. record { put = take set.put set.writes.items; all = set.writes.items } };

    ghost invariant = { λ set. (set.put ≤ length set.writes.items) × HasEachOnce (take set.put set.writes.items) };
}

fn is_same_rec(rec: &Option<Bytes>, other: Option<&[u8]>) -> bool
    ensures { result ≡ is_same_rec rec.now (option_copied other.entry) }
{
    match (rec, other) {
        (Some(rec), Some(other)) => rec.as_slice() == other,
        (None, None) => true,
        _ => false,
    }
}

fn is_write(write: &Write, key: &[u8], rec: Option<&[u8]>) -> bool
    ensures { result ≡ is_write key.now (option_copied rec.entry) write.now }
{
    write.key.as_slice() == key && is_same_rec(&write.rec, rec)
}

// The place of a write among writes.
fn place_of(writes: &[Write], key: &[u8], rec: Option<&[u8]>) -> Option<usize>
    ensures { result ≡ position (is_write key.now (option_copied rec.entry)) writes.now }
{
    writes.iter().position(|write| is_write(write, key, rec))
}

// The place of a write among writes. The first places to look at are that of the next put and the opposite one: it is there
// where writes are put in the order in which room was made for them, and in the reverse order.
fn held_place(writes: &[Write], next: usize, key: &[u8], rec: Option<&[u8]>) -> Option<usize>
    ensures { MatchOption result (position (is_write key.now (option_copied rec.entry)) writes.now ≡ None) (λ place. IsWriteAt key.now (option_copied rec.entry) writes.now place) }
{
    if next < writes.len() {
        if is_write(&writes[next], key, rec) {
            return Some(next);
        }
        let opposite = writes.len() - 1 - next;
        if is_write(&writes[opposite], key, rec) {
            return Some(opposite);
        }
    }
    place_of(writes, key, rec)
}

// The place of a key among writes.
fn place_of_key(writes: &[Write], key: &[u8]) -> Option<usize>
    ensures { result ≡ position (is_of_key key.now) writes.now }
{
    writes.iter().position(|write| write.key.as_slice() == key)
}

// Whether the write at a place is of a key.
fn is_at(writes: &[Write], place: usize, key: &[u8]) -> bool
    ensures { result ≡ true → IsKeyAt key.now writes.now place }
{
    place < writes.len() && writes[place].key.as_slice() == key
}

// The place of a key among writes that are put, out of some number of writes. It is looked for at the end, and at the opposite
// place: it is there where puts are taken back in the reverse order, and in the order in which room was made for them.
fn put_place(put: &[Write], all: usize, key: &[u8]) -> Option<usize>
    ensures { MatchOption result (position (is_of_key key.now) put.now ≡ None) (λ place. IsKeyAt key.now put.now place) }
{
    let last = put.len().saturating_sub(1);
    if is_at(put, last, key) {
        return Some(last);
    }
    let opposite = all.saturating_sub(put.len());
    if is_at(put, opposite, key) {
        return Some(opposite);
    }
    place_of_key(put, key)
}

// The place of a write among writes, which get it where it was not there.
fn hold(
    alloc: Global,
    writes: &mut Vec<Write>,
    next: usize,
    key: &[u8],
    rec: Option<&[u8]>,
) -> Result<usize, NoMemory>
    ensures held { IfOk result (λ place. IsHeldIn (record { key = key.now; rec = option_copied rec.entry }) writes.old.items writes.new.items place) }
    ensures no_memory { OnErr result (writes.new.items ≡ writes.old.items) }
{
    if let Some(place) = held_place(writes.as_slice(), next, key, rec) {
        return Ok(place);
    }
    let last = writes.len();
    writes.push(copy_write(alloc, key, rec)?)?;
    Ok(last)
}

impl WriteSet {
    /// Room for writes, none of which is put.
    pub fn of(writes: Vec<Write>) -> WriteSet
        ensures put { result.put ≡ [] }
        ensures all { result.all ≡ writes.items }
    {
        WriteSet { writes, put: 0 }
    }

    /// The write set.
    pub fn put(&self) -> &[Write]
        ensures { result.now ≡ self.now.put }
    {
        &self.writes[..self.put]
    }

    /// Whether a key is in the write set.
    pub fn has(&self, key: &[u8]) -> bool
        ensures { result ≡ holds_key key.now self.now.put }
    {
        has_key(self.put(), key)
    }

    /// Puts a write, for which it takes the memory where there is no room.
    pub fn add(&mut self, alloc: Global, key: &[u8], rec: Option<&[u8]>) -> Result<(), NoMemory>
        requires new { holds_key key.now self.old.put ≡ false }
        ensures put { OnOk result (self.new.put ≡ self.old.put ++ record { key = key.now; rec = option_copied rec.entry } ∷ []) }
        ensures all { OnOk result (HasAllOf self.old.all self.new.all) }
        ensures no_memory { OnErr result (self.new ≡ self.old) }
    {
        let place = hold(alloc, &mut self.writes, self.put, key, rec)?;
        self.writes.swap(place, self.put);
        self.put += 1;
        Ok(())
    }

    /// Puts a write for which there is room.
    pub fn put_held(&mut self, key: &[u8], rec: Option<&[u8]>)
        requires there { Among (record { key = key.now; rec = option_copied rec }) self.old.all }
        requires new { holds_key key.now self.old.put ≡ false }
        ensures put { self.new.put ≡ self.old.put ++ record { key = key.now; rec = option_copied rec.entry } ∷ [] }
        ensures all { HasAllOf self.old.all self.new.all }
    {
        let Some(place) = held_place(self.writes.as_slice(), self.put, key, rec) else {
            unreachable!()
        };
        self.writes.swap(place, self.put);
        self.put += 1;
    }

    /// Takes a put back. There is room for its write still.
    pub fn take_back(&mut self, key: &[u8])
        requires there { holds_key key.now self.old.put ≡ true }
        ensures put { HaveSameWrites self.new.put (without key.now self.old.put) }
        ensures all { HasAllOf self.old.all self.new.all }
    {
        let Some(place) = put_place(self.put(), self.writes.len(), key) else {
            unreachable!()
        };
        let last = self.put - 1;
        self.writes.swap(place, last);
        self.put = last;
    }

    /// The write set, moved out.
    pub fn into_put(self) -> Vec<Write>
        ensures { result.items ≡ self.put }
    {
        let WriteSet { mut writes, put } = self;
        writes.truncate(put);
        writes
    }
}
