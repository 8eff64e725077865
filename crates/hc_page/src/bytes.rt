//! Bytes of a page.
ghost use Rattle.std.specs.Prelude.{◌≡◌, ◌≤◌, ◌<◌, ◌+◌, ◌*◌, ◌^◌, ℕ, List, length, slice_index};
ghost use Rattle.hc_page.specs.Reading.{byte_in, digit, IsKeyAt};

use crate::compare::KeyAt;
use hc_base::Page;
use hc_range::KeyBuf;

/// The byte at a place, counted from 0 and from the high end of each word.
pub fn byte(page: &Page, at: u16) -> u8
    requires { at < 2048 }
    ensures { result ≡ byte_in page.now.words at }
{
    let word = page.words[at as usize / 8];
    byte_of_word(word, at as usize % 8)
}

// Byte k of a word, the first the highest.
fn byte_of_word(word: u64, k: usize) -> u8
    requires { k < 8 }
    ensures { result ≡ digit word k }
{
    let rest = match k {
        0 => word / (1 << 56),
        1 => word / (1 << 48),
        2 => word / (1 << 40),
        3 => word / (1 << 32),
        4 => word / (1 << 24),
        5 => word / (1 << 16),
        6 => word / (1 << 8),
        _ => word,
    };
    (rest % 256) as u8
}

/// A copy of a key of the page.
pub fn copy_key(page: &Page, key: KeyAt) -> KeyBuf
    requires fits { key.at * 8 + key.len ≤ 2048 }
    requires short { key.len ≤ 463 }
    ensures { (bytes : List ℕ) → IsKeyAt page.now.words key.at key.len bytes → result ≡ bytes }
{
    let mut copy = [0; 463];
    for k in 0..key.len {
        copy[k] = byte_of_word(page.words[key.at + k / 8], k % 8);
    }
    KeyBuf::from_slice(&copy[..key.len])
}
