// The keys that a transaction has written, in order.
ghost use Rattle.std.specs.Prelude.{◌≡◌, ◌↔◌, IsTrue, ◌++◌, [], None, Some, IsSome, IfOk, MatchOption, OnOk, OnErr, map};
ghost use Rattle.hc_range.specs.Ranges.{InRange};
ghost use Rattle.hc_txn.specs.Kept.{AreOrdered, find_known, now_at, with_known, with_now};
ghost use Rattle.hc_txn.specs.Laid.{standing, standing_in};
ghost use Rattle.hc_txn.specs.Laying.{IsLastPut, PutsNothing};
ghost use Rattle.hc_txn.specs.Net.{net, same_record, with_net};

use crate::copying::copy_kept;
use hc_core::{Cell, Write};
use hc_range::{Bytes, NoMemory, Range};
use std::alloc::Global;
use std::collections::{BTreeMap, btree_map};
use std::marker::Model;
use std::ops::Bound;

/// What is kept of a key.
#[derive(Debug, Drop)]
pub struct Kept {
    /// The record that the snapshot has.
    pub before: Option<Bytes>,
    /// What the newest own write puts, where one stands.
    pub now: Option<Option<Bytes>>,
}

/// The keys that were written, with what is kept of each. A contract sees them in ascending order.
#[derive(Drop)]
pub struct KeptKeys {
    tree: BTreeMap<Vec<u8>, Kept>,
}

impl Model for KeptKeys {
    ghost use Rattle.std.specs.Prelude.{List, map};
    ghost use Rattle.hc_txn.specs.Kept.{Known};

    ghost Value = { List Known };

    ghost view = { λ keys. map (λ e. record { key = e.0.items; before = e.1.before; now = e.1.now }) keys.tree.entries };
}

impl KeptKeys {
    pub fn new(alloc: Global) -> KeptKeys
        ensures { result ≡ [] }
    {
        KeptKeys {
            tree: BTreeMap::new(alloc),
        }
    }

    pub fn find(&self, key: &[u8]) -> Option<&Kept>
        ensures { MatchOption result (find_known key.now self.now ≡ None)
            (λ kept. find_known key.now self.now ≡ Some (record { key = key.now; before = kept.now.before; now = kept.now.now })) }
    {
        self.tree.get(key)
    }

    /// Keeps the snapshot's record of a key, at which no own write stands.
    pub fn add(&mut self, key: Vec<u8>, before: Option<Bytes>) -> Result<(), NoMemory>
        ensures added { OnOk result (self.new ≡ with_known (record { key = key.items; before = before; now = None }) self.old) }
        ensures no_memory { OnErr result (self.new ≡ self.old) }
    {
        self.tree.insert(key, Kept { before, now: None })?;
        Ok(())
    }

    /// Puts an own write at a kept key, or none, and gives back what stood there.
    pub fn set(&mut self, key: &[u8], now: Option<Option<Bytes>>) -> Option<Option<Bytes>>
        requires { IsSome (find_known key.now self.old) }
        ensures was { result ≡ now_at self.old key.now }
        ensures set { self.new ≡ with_now key.now now self.old }
    {
        match self.tree.get_mut(key) {
            Some(kept) => std::mem::replace(&mut kept.now, now),
            None => unreachable!(),
        }
    }

    /// The own writes that stand and put another record than the snapshot's, in the order of their keys. None is copied.
    pub fn into_net(self, alloc: Global) -> Result<Vec<Write>, NoMemory>
        ensures net { IfOk result (λ writes. writes.items ≡ net self) }
        ensures ordered { AreOrdered self }
    {
        let KeptKeys { tree } = self;
        net_of(alloc, tree)
    }

    /// The last cell that the own writes put in a range.
    pub fn last_put(&self, alloc: Global, range: &Range) -> Result<Option<Cell>, NoMemory>
        requires { InRange range.now range.now.lo }
        ensures last { IfOk result (λ cell. IsLastPut (standing_in range.now self.now) cell) }
        ensures ordered { OnOk result (AreOrdered self.now) }
    {
        let lo = Vec::from_slice(alloc, range.lo.as_slice())?;
        match &range.hi {
            Some(hi) => {
                let hi = Vec::from_slice(alloc, hi.as_slice())?;
                last_put(
                    alloc,
                    self.tree
                        .range((Bound::Included(&lo), Bound::Excluded(&hi))),
                )
            }
            None => last_put(
                alloc,
                self.tree.range((Bound::Included(&lo), Bound::Unbounded)),
            ),
        }
    }

    /// The own writes that stand in a range, in the order of their keys.
    pub fn standing_in(&self, alloc: Global, range: &Range) -> Result<Vec<Write>, NoMemory>
        requires { InRange range.now range.now.lo }
        ensures standing { IfOk result (λ writes. writes.items ≡ standing_in range.now self.now) }
        ensures ordered { OnOk result (AreOrdered self.now) }
    {
        let lo = Vec::from_slice(alloc, range.lo.as_slice())?;
        match &range.hi {
            Some(hi) => {
                let hi = Vec::from_slice(alloc, hi.as_slice())?;
                standing(
                    alloc,
                    self.tree
                        .range((Bound::Included(&lo), Bound::Excluded(&hi))),
                )
            }
            None => standing(
                alloc,
                self.tree.range((Bound::Included(&lo), Bound::Unbounded)),
            ),
        }
    }
}

// The own writes that stand at kept keys.
fn standing(
    alloc: Global,
    keys: btree_map::Range<'_, Vec<u8>, Kept>,
) -> Result<Vec<Write>, NoMemory>
    ensures { IfOk result (λ writes. writes.items ≡ standing (map (λ e. record { key = e.0.items; before = e.1.before; now = e.1.now }) keys.entry)) }
{
    let mut writes = Vec::new(alloc);
    for (key, kept) in keys {
        if let Some(rec) = &kept.now {
            writes.push(Write {
                key: Bytes::from_slice(alloc, key.as_slice())?,
                rec: copy_kept(alloc, rec)?,
            })?;
        }
    }
    Ok(writes)
}

// Whether two records are the same.
fn is_same(a: &Option<Bytes>, b: &Option<Bytes>) -> bool
    ensures { result ≡ same_record a.now b.now }
{
    match (a, b) {
        (None, None) => true,
        (Some(a), Some(b)) => a.as_slice() == b.as_slice(),
        _ => false,
    }
}

// Adds what stands at a key, where it is not the snapshot's record.
fn push_net(writes: &mut Vec<Write>, key: Vec<u8>, kept: Kept) -> Result<(), NoMemory>
    ensures { OnOk result (writes.new.items ≡ writes.old.items ++ with_net key.items kept.before kept.now []) }
{
    let Kept { before, now } = kept;
    let Some(rec) = now else {
        return Ok(());
    };
    if is_same(&before, &rec) {
        return Ok(());
    }
    writes.push(Write {
        key: Bytes::from_vec(key),
        rec,
    })?;
    Ok(())
}

fn net_of(alloc: Global, tree: BTreeMap<Vec<u8>, Kept>) -> Result<Vec<Write>, NoMemory>
    ensures net { IfOk result (λ writes. writes.items ≡ net (map (λ e. record { key = e.0.items; before = e.1.before; now = e.1.now }) tree.entries)) }
    ensures ordered { AreOrdered (map (λ e. record { key = e.0.items; before = e.1.before; now = e.1.now }) tree.entries) }
{
    let mut writes = Vec::new(alloc);
    for (key, kept) in tree {
        push_net(&mut writes, key, kept)?;
    }
    Ok(writes)
}

/// Whether an own write stands that is a tombstone.
pub fn is_tombstone(kept: &Kept) -> bool
    ensures { IsTrue result ↔ (kept.entry.now.now ≡ Some None) }
{
    matches!(&kept.now, Some(None))
}

// The record that an own write puts, where one stands that is no tombstone.
fn record_put(kept: &Kept) -> Option<&Bytes>
    ensures { MatchOption result (PutsNothing kept.entry.now.now) (λ rec. kept.entry.now.now ≡ Some (Some rec.now)) }
{
    match &kept.now {
        Some(Some(rec)) => Some(rec),
        _ => None,
    }
}

// The last cell that the own writes at kept keys put.
fn last_put(
    alloc: Global,
    mut keys: btree_map::Range<'_, Vec<u8>, Kept>,
) -> Result<Option<Cell>, NoMemory>
    ensures { IfOk result (λ cell. IsLastPut (standing (map (λ e. record { key = e.0.items; before = e.1.before; now = e.1.now }) keys.entry)) cell) }
{
    while let Some((key, kept)) = keys.next_back() {
        let Some(rec) = record_put(kept) else {
            continue;
        };
        let key = Bytes::from_slice(alloc, key.as_slice())?;
        let rec = Bytes::from_slice(alloc, rec.as_slice())?;
        return Ok(Some(Cell { key, rec }));
    }
    Ok(None)
}
