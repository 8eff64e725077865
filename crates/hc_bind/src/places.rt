// The first place at which each key was met.
ghost use Rattle.std.specs.Prelude.{◌≡◌, ℕ, List, Some, None, OnOk, if◌then◌else◌};
ghost use Rattle.std.specs.Option.{option_or};
ghost use Rattle.std.specs.Str.{bytes_eq};
ghost use Rattle.hc_bind.specs.First.{place_at};

use hc_value::NoMemory;
use std::alloc::Global;
use std::collections::BTreeMap;

/// Keys with the first place of each.
#[derive(Drop)]
pub struct Places {
    pub known: BTreeMap<Vec<u8>, u32>,
}

impl Places {
    pub fn new(alloc: Global) -> Places
        ensures { (key : List ℕ) → place_at result key ≡ None }
    {
        Places {
            known: BTreeMap::new(alloc),
        }
    }

    /// The first place of a key, if it was met.
    pub fn get(&self, key: &[u8]) -> Option<u32>
        ensures { result ≡ place_at self.now key.now }
    {
        self.known.get(key).copied()
    }

    /// A key is met at a place.
    pub fn note(&mut self, key: Vec<u8>, place: u32) -> Result<(), NoMemory>
        ensures { OnOk result ((q : List ℕ) → place_at self.new q ≡ option_or (place_at self.old q) (if bytes_eq q key.items then Some place else None)) }
    {
        if self.get(key.as_slice()).is_some() {
            return Ok(());
        }
        self.insert(key, place)
    }

    fn insert(&mut self, key: Vec<u8>, place: u32) -> Result<(), NoMemory>
        ensures { OnOk result ((q : List ℕ) → place_at self.new q ≡ (if bytes_eq q key.items then Some place else place_at self.old q)) }
    {
        self.known.insert(key, place)?;
        Ok(())
    }
}
