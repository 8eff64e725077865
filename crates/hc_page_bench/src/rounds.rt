//! Rounds of one kind of work, with a checksum.
ghost use Rattle.std.specs.Prelude.{◌≤◌, length};
ghost use Rattle.hc_page.specs.Open.{IsOpenLeaf};

use crate::leaf::{key, put};
use hc_base::Page;
use hc_page::{Found, find};

/// Copies of an array of 2,048 bytes, from one of eight to another.
pub fn copies(rounds: u32) -> u64 {
    let mut arrays = [[1u64; 256]; 8];
    let mut sum = 0u64;
    for round in 0..rounds {
        let from = (round % 7) as usize;
        let copy = arrays[from];
        arrays[(round % 8) as usize] = copy;
        sum = sum.wrapping_add(arrays[(sum % 8) as usize][(round % 256) as usize]);
    }
    sum
}

/// Look-ups of all keys in turn, half of which are there.
pub fn looked_up(page: &Page, rounds: u32) -> u64
    requires { IsOpenLeaf page.now.words }
{
    let mut sum = 0u64;
    for round in 0..rounds {
        let place = match find(page, &key((round % 41) as u8)) {
            Found::At(slot) => u64::from(slot),
            Found::Before(slot) => u64::from(slot) + 100,
        };
        sum = sum.wrapping_add(place);
    }
    sum
}

/// Puts of one key into the same leaf.
pub fn puts(page: &Page, key: [u8; 13], rounds: u32) -> u64
    requires { IsOpenLeaf page.now.words }
{
    let mut out = *page;
    let mut sum = 0u64;
    for _ in 0..rounds {
        put(page, &key, &mut out);
        sum = sum.wrapping_add(out.words[0]);
    }
    sum
}
