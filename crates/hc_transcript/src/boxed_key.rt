ghost use Rattle.std.specs.Prelude.{◌≡◌, ◌≤◌, [], length, IfOk};

use hc_range::{KeyBuf, LONGEST_KEY};
use hc_value::NoMemory;
use std::alloc::Global;
use std::marker::Model;

/// A key on the heap, so that what holds one is small. A contract sees the list of its bytes.
#[derive(Debug, Drop)]
pub struct BoxedKey {
    inner: Box<KeyBuf>,
}

impl Model for BoxedKey {
    ghost use Rattle.std.specs.Prelude.{List, ℕ};

    ghost Value = { List ℕ };

    ghost view = { λ b. b.inner.value };
}

impl BoxedKey {
    /// Room for a key, with the empty one in it.
    pub fn new(alloc: Global) -> Result<BoxedKey, NoMemory>
        ensures { IfOk result (λ key. key ≡ []) }
    {
        let inner = Box::new(alloc, KeyBuf::from_slice(&[]))?;
        Ok(BoxedKey { inner })
    }

    /// The same room with a copy of this key in it.
    pub fn filled(self, key: &[u8]) -> BoxedKey
        requires { length key.now ≤ LONGEST_KEY }
        ensures { result ≡ key.now }
    {
        let BoxedKey { mut inner } = self;
        *inner = KeyBuf::from_slice(key);
        BoxedKey { inner }
    }

    /// The key's bytes.
    pub fn as_slice(&self) -> &[u8]
        ensures bytes { result.now ≡ self.now }
        ensures short { length self.now ≤ LONGEST_KEY }
    {
        self.inner.as_slice()
    }
}
