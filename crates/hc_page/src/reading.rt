//! The numbers of a page where its layout puts them.
ghost use Rattle.std.specs.Prelude.{◌≡◌, ◌<◌};
ghost use Rattle.hc_base.specs.Layout.{quarter};
ghost use Rattle.hc_page.specs.Reading.{level_in, count_in, place_in, entry_head, key_length, record_length, entry_size};

use hc_base::Page;

/// The page's level, 0 for a leaf.
pub fn level(page: &Page) -> u8
    ensures { result ≡ level_in page.now.words }
{
    (page.words[0] / (1 << 48) % (1 << 8)) as u8
}

/// How many entries it has.
pub fn count(page: &Page) -> usize
    ensures { result ≡ count_in page.now.words }
{
    (page.words[0] / (1 << 32) % (1 << 16)) as usize
}

/// The first word of an entry.
pub fn place(page: &Page, slot: usize) -> usize
    requires { slot < 1008 }
    ensures { result ≡ place_in page.now.words slot }
{
    let word = page.words[4 + slot / 4];
    quarter(slot % 4, word) as usize
}

// Number k of the four in a word.
fn quarter(k: usize, word: u64) -> u64
    ensures { result ≡ quarter k word }
{
    match k {
        0 => word / (1 << 48),
        1 => word / (1 << 32) % (1 << 16),
        2 => word / (1 << 16) % (1 << 16),
        _ => word % (1 << 16),
    }
}

/// How many words an entry has before its key.
pub fn head(level: u8) -> usize
    ensures { result ≡ entry_head level }
{
    if level == 0 { 2 } else { 1 }
}

/// The length of an entry's key, from its first word.
pub fn key_len(level: u8, word: u64) -> usize
    ensures { result ≡ key_length level word }
{
    if level == 0 {
        (word / (1 << 20) % (1 << 12)) as usize
    } else {
        (word / (1 << 16) % (1 << 16)) as usize
    }
}

/// How many words an entry has, from its first one.
pub fn entry_len(level: u8, word: u64) -> usize
    ensures { result ≡ entry_size level word }
{
    head(level) + (key_len(level, word) + rec_len(level, word) + 7) / 8
}

/// The length of an entry's record, from its first word.
pub fn rec_len(level: u8, word: u64) -> usize
    ensures { result ≡ record_length level word }
{
    if level == 0 {
        (word / (1 << 8) % (1 << 12)) as usize
    } else {
        0
    }
}
