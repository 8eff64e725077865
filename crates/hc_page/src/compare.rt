//! Keys of a page compare by words.
ghost use Rattle.std.specs.Prelude.{◌≡◌, ◌≤◌, ◌<◌, ◌+◌, ◌*◌, ◌^◌, ℕ, List, length, slice_index};
ghost use Rattle.std.specs.Ordering.{nat_cmp};
ghost use Rattle.std.specs.Cmp.Lexicographic.{slice_cmp};
ghost use Rattle.hc_page.specs.Reading.{top_bytes, key_word, IsKeyAt};

use crate::Sought;
use hc_base::Page;
use std::cmp::Ordering;

/// A key of a page: the word that its bytes begin with, and their number.
#[derive(Debug, Clone, Copy, PartialEq, Eq)]
pub struct KeyAt {
    pub at: usize,
    pub len: usize,
}

/// The order of a key of the page and another one.
pub fn compare(page: &Page, key: KeyAt, sought: &Sought<'_>) -> Ordering
    requires { key.at * 8 + key.len ≤ 2048 }
    ensures { (bytes : List ℕ) → IsKeyAt page.now.words key.at key.len bytes → result ≡ slice_cmp nat_cmp bytes sought.now.bytes.now }
{
    let longest = key.len.max(sought.len());
    'words: for j in 0..longest / 8 + 1 {
        let one = word_of_key(page, key, j);
        let other = sought.word(j);
        if one != other {
            return one.cmp(&other);
        }
    }
    key.len.cmp(&sought.len())
}

// Word j of a key, and 0 after its end.
fn word_of_key(page: &Page, key: KeyAt, j: usize) -> u64
    requires fits { key.at * 8 + key.len ≤ 2048 }
    requires few { j < 2 ^ 61 }
    ensures { result ≡ key_word page.now.words key.at key.len j }
{
    if 8 * j >= key.len {
        return 0;
    }
    top_bytes(key.len - 8 * j, page.words[key.at + j])
}

// The top bytes of a word, the others as 0.
fn top_bytes(count: usize, word: u64) -> u64
    requires { 0 < count }
    ensures { result ≡ top_bytes count word }
{
    match count {
        1 => word / (1 << 56) * (1 << 56),
        2 => word / (1 << 48) * (1 << 48),
        3 => word / (1 << 40) * (1 << 40),
        4 => word / (1 << 32) * (1 << 32),
        5 => word / (1 << 24) * (1 << 24),
        6 => word / (1 << 16) * (1 << 16),
        7 => word / (1 << 8) * (1 << 8),
        _ => word,
    }
}
