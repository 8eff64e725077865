// The own writes of a transaction.
ghost use Rattle.std.specs.Prelude.{◌≡◌, ◌≢◌, ◌⊎◌, ◌↔◌, ◌-◌, ◌≤◌, [], ◌∷◌, Some, None, MatchOption, IfOk, OnOk, OnErr, IsTrue, length, drop, true};
ghost use Rattle.std.specs.Option.{option_copied};
ghost use Rattle.hc_base.specs.Entries.{entry_fits};
ghost use Rattle.hc_core.specs.Account.{HoldsKey, record_of};
ghost use Rattle.hc_core.specs.Desk.{EachFits};
ghost use Rattle.hc_base.specs.Lookup.{Among};
ghost use Rattle.hc_core.specs.declared.cells.Write.{Write};
ghost use Rattle.hc_range.specs.Ranges.{InRange};
ghost use Rattle.hc_core.specs.Versions.{AreAscending};
ghost use Rattle.hc_txn.specs.Laying.{AreStandingIn, HasLaid, IsLastOwn};
ghost use Rattle.hc_txn.specs.Net.{IsNetOf};
ghost use Rattle.hc_txn.specs.Stores.{latest};
ghost use Rattle.hc_txn.specs.Transactions.{earlier};

use crate::copying::{copy_bytes, copy_rec};
use crate::kept::{Kept, KeptKeys, is_tombstone};
use crate::laid::lay_over;
use hc_core::{Cell, Part, Write};
use hc_range::{Bytes, NoMemory, Range};
use std::alloc::Global;
use std::marker::Model;

/// A write that can be undone.
#[derive(Debug, Drop)]
pub struct Past {
    /// Its key.
    pub key: Bytes,
    /// The own write that stood at the key before, if one did.
    pub older: Option<Option<Bytes>>,
}

/// The own writes of a transaction. A contract sees them with the newest first, and the snapshot's records of all keys that
/// were written, also where the write was undone.
#[derive(Drop)]
pub struct OwnWrites {
    keys: KeptKeys,
    // The oldest first.
    history: Vec<Past>,
}

impl Model for OwnWrites {
    ghost use Rattle.std.specs.Prelude.{reverse};
    ghost use Rattle.hc_txn.specs.Own.{Writes, writes_in, IsHistory};

    ghost Value = { Writes };

    ghost view = { λ w. writes_in w.keys (reverse w.history.items) };

    ghost invariant = { λ w. IsHistory w.keys (reverse w.history.items) };
}

impl OwnWrites {
    pub fn new(alloc: Global) -> OwnWrites
        ensures { (result.own ≡ []) × (result.kept ≡ []) }
    {
        OwnWrites {
            keys: KeptKeys::new(alloc),
            history: Vec::new(alloc),
        }
    }

    /// How many writes stand.
    pub fn len(&self) -> usize
        ensures { result ≡ length self.now.own }
    {
        self.history.len()
    }

    /// What is kept of a key that was written.
    pub fn find(&self, key: &[u8]) -> Option<&Kept>
        ensures kept { MatchOption result (HoldsKey self.now.kept key.now → ⊥)
            (λ kept. Among (record { key = key.now; rec = kept.now.before }) self.now.kept) }
        ensures now { MatchOption result (latest self.now.own key.now ≡ None) (λ kept. latest self.now.own key.now ≡ kept.now.now) }
    {
        self.keys.find(key)
    }

    /// Keeps the snapshot's record of a key that was never written.
    pub fn add(&mut self, alloc: Global, key: &[u8], before: Option<Bytes>) -> Result<(), NoMemory>
        requires { HoldsKey self.old.kept key.now → ⊥ }
        ensures own { self.new.own ≡ self.old.own }
        ensures kept { OnOk result ((write : Write) → Among write self.new.kept ↔ ((write ≡ record { key = key.now; rec = before }) ⊎ Among write self.old.kept)) }
        ensures no_memory { OnErr result (self.new.kept ≡ self.old.kept) }
    {
        let key = Vec::from_slice(alloc, key)?;
        self.keys.add(key, before)
    }

    /// Puts a record, or a tombstone, at a key whose record in the snapshot is kept.
    pub fn put(&mut self, alloc: Global, key: &[u8], rec: Option<&[u8]>) -> Result<(), NoMemory>
        requires kept { HoldsKey self.old.kept key.now }
        requires fits { entry_fits (length key.now) (length (record_of (option_copied rec))) ≡ true }
        ensures own { OnOk result (self.new.own ≡ record { key = key.now; rec = option_copied rec.entry } ∷ self.old.own) }
        ensures kept { self.new.kept ≡ self.old.kept }
        ensures no_memory { OnErr result (self.new.own ≡ self.old.own) }
    {
        let past = copy_bytes(alloc, key)?;
        let rec = copy_rec(alloc, rec)?;
        self.history.reserve(1)?;
        let older = self.keys.set(key, Some(rec));
        match self.history.push(Past { key: past, older }) {
            Ok(()) => Ok(()),
            Err(_) => unreachable!(),
        }
    }

    /// Undoes the newest write, if there is one.
    pub fn undo(&mut self)
        ensures own { self.new.own ≡ drop 1 self.old.own }
        ensures kept { self.new.kept ≡ self.old.kept }
    {
        if let Some(past) = self.history.pop() {
            let Past { key, older } = past;
            self.keys.set(key.as_slice(), older);
        }
    }

    /// Undoes the newest writes down to some number of them.
    pub fn undo_to(&mut self, count: usize)
        ensures own { self.new.own ≡ earlier count self.old.own }
        ensures kept { self.new.kept ≡ self.old.kept }
    {
        while self.len() > count {
            self.undo();
        }
    }

    /// Whether the newest own write of a key is a tombstone.
    pub fn clears(&self, key: &[u8]) -> bool
        ensures { IsTrue result ↔ (latest self.now.own key.now ≡ Some None) }
    {
        match self.find(key) {
            Some(kept) => is_tombstone(kept),
            None => false,
        }
    }

    // The own writes that stand in a range, in the order of their keys.
    fn standing_in(&self, alloc: Global, range: &Range) -> Result<Vec<Write>, NoMemory>
        requires { InRange range.now range.now.lo }
        ensures { IfOk result (λ writes. AreStandingIn range.now self.now.own writes.items) }
    {
        self.keys.standing_in(alloc, range)
    }

    /// The last cell that the own writes put in a range.
    pub fn last_put(&self, alloc: Global, range: &Range) -> Result<Option<Cell>, NoMemory>
        requires { InRange range.now range.now.lo }
        ensures { IfOk result (λ cell. IsLastOwn range.now self.now.own cell) }
    {
        self.keys.last_put(alloc, range)
    }

    /// Adds the cells of a range as they are with the own writes over them. Of `out` nothing is said without memory.
    pub fn lay_over(
        &self,
        alloc: Global,
        range: &Range,
        part: Part,
        out: &mut Part,
    ) -> Result<(), NoMemory>
        requires some { InRange range.now range.now.lo }
        requires ascending { AreAscending part.cells }
        ensures { OnOk result (HasLaid self.now.own range.now part.cells out.old.cells out.new.cells) }
    {
        let writes = self.standing_in(alloc, range)?;
        lay_over(alloc, writes, part, out)
    }

    /// The own writes that put another record than the snapshot's, in the order of their keys. None is copied.
    pub fn into_net(self, alloc: Global) -> Result<Vec<Write>, NoMemory>
        ensures { IfOk result (λ writes. IsNetOf self.own self.kept writes.items) }
    {
        let OwnWrites {
            keys,
            history: _history,
        } = self;
        keys.into_net(alloc)
    }
}
