ghost use Rattle.std.specs.Prelude.{◌≡◌, ◌-◌, ◌≤◌, ◌++◌, length, replicate};

use std::marker::Model;

/// How many bytes a stored key has at most.
pub const LONGEST_KEY: usize = 463;

/// A key of at most `LONGEST_KEY` bytes, kept in place, so that it is copied without taking memory. A contract
/// sees the list of its bytes.
#[derive(Debug, Clone, Copy, PartialEq, Eq)]
pub struct KeyBuf {
    /// How many bytes the key has.
    pub len: u16,
    /// The key's bytes, and then zeros.
    pub bytes: [u8; LONGEST_KEY],
}

impl Model for KeyBuf {
    ghost use Rattle.std.specs.Prelude.{List, ℕ};

    ghost Value = { List ℕ };

    ghost use Rattle.hc_range.specs.Keys.{key_in, IsPadded, buffer_of};

    ghost view = { key_in };

    ghost invariant = { IsPadded };

    ghost inverse = { buffer_of };

    ghost use Rattle.hc_range.specs.Keys.{buffer_of-key_in};

    ghost inverse_ok = { buffer_of-key_in };
}

// A key's bytes, and then zeros.
fn padded(key: &[u8]) -> [u8; LONGEST_KEY]
    requires { length key.now ≤ LONGEST_KEY }
    ensures { result ≡ key.now ++ replicate (LONGEST_KEY - length key.now) 0 }
{
    let mut bytes = [0; LONGEST_KEY];
    bytes[..key.len()].copy_from_slice(key);
    bytes
}

impl KeyBuf {
    /// A copy of a key.
    pub fn from_slice(key: &[u8]) -> KeyBuf
        requires { length key.now ≤ LONGEST_KEY }
        ensures { result ≡ key.now }
    {
        KeyBuf {
            len: key.len() as u16,
            bytes: padded(key),
        }
    }

    /// The key's bytes.
    pub fn as_slice(&self) -> &[u8]
        ensures bytes { result.now ≡ self.now }
        ensures short { length self.now ≤ LONGEST_KEY }
    {
        &self.bytes[..self.len as usize]
    }
}
