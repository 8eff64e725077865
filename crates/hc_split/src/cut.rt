//! Where entries are cut in two: the larger half has the fewest words that it can have, at the first such place.
ghost use Rattle.std.specs.Prelude.{◌≡◌, ◌<◌, ◌≤◌, ◌+◌, ◌/◌, ◌^◌, ℕ, List, Option, cond, leb, length};
ghost use Rattle.hc_base.specs.declared.numbers.Logical.{Logical as Number};
ghost use Rattle.hc_base.specs.Content.{Content};
ghost use Rattle.hc_base.specs.Layout.{fence_words, low_words, used_words};
ghost use Rattle.hc_page.specs.Puts.{with_entries};
ghost use Rattle.hc_shape.specs.Halves.{IsCut, larger, least_in_half, left_half, right_half};
ghost use Rattle.hc_split.specs.Joined.{IsJoined, joined_entries};
ghost use Rattle.hc_split.specs.Parts.{CanMeasure, HasPlace, IsFrame};

use crate::joined::Joined;
use hc_range::KeyBuf;

/// A page's level, and how many words its fences take that are written out.
#[derive(Debug, Clone, Copy, PartialEq, Eq)]
pub struct Frame {
    pub level: u8,
    pub low: usize,
    pub high: usize,
}

/// The frame of a page of this level with these fences.
pub fn frame_of(level: u8, low: &KeyBuf, high: &Option<KeyBuf>) -> Frame
    ensures level { result.level ≡ level }
    ensures low { result.low ≡ length (low_words level low.now) }
    ensures high { result.high ≡ length (fence_words high.now) }
{
    Frame {
        level,
        low: low_size(level, low.as_slice().len()),
        high: high_size(high),
    }
}

/// The cut of a joined list: so many entries are in the left half.
pub fn cut(joined: &Joined<'_>, frame: Frame) -> usize
    requires place { (c : Content) × HasPlace joined.now frame c }
    ensures cut { (c : Content) (fresh : Number) → HasPlace joined.now frame c → IsCut c fresh (joined_entries joined.now c) result }
{
    let least = least_in_half(frame.level);
    let mut best = least;
    let mut fewest = larger_at(joined, frame, least);
    'places: for at in least + 1..joined.count() - least + 1 {
        let words = larger_at(joined, frame, at);
        if words < fewest {
            best = at;
            fewest = words;
        }
    }
    best
}

// How many entries a half has at least.
fn least_in_half(level: u8) -> usize
    ensures least { result ≡ least_in_half level }
    ensures few { result ≤ 2 }
{
    if level == 0 { 1 } else { 2 }
}

// How many words the larger half has, where the left one has so many entries.
fn larger_at(joined: &Joined<'_>, frame: Frame, at: usize) -> usize
    requires there { (c : Content) × CanMeasure joined.now frame at c }
    ensures larger { (c : Content) (fresh : Number) → CanMeasure joined.now frame at c → result ≡ larger c fresh (joined_entries joined.now c) at }
{
    let left = left_words(joined, frame, at);
    let right = right_words(joined, frame, at);
    if left <= right { right } else { left }
}

// How many words the left half has.
fn left_words(joined: &Joined<'_>, frame: Frame, at: usize) -> usize
    requires there { (c : Content) × CanMeasure joined.now frame at c }
    ensures left { (c : Content) (fresh : Number) → CanMeasure joined.now frame at c → result ≡ used_words (left_half c fresh (joined_entries joined.now c) at) }
{
    let cut = size(joined.key_len(at));
    4 + (at + 3) / 4 + frame.low + cut + joined.words_to(at)
}

// How many words the right half has.
fn right_words(joined: &Joined<'_>, frame: Frame, at: usize) -> usize
    requires there { (c : Content) × CanMeasure joined.now frame at c }
    ensures right { (c : Content) (fresh : Number) → CanMeasure joined.now frame at c → result ≡ used_words (right_half c fresh (joined_entries joined.now c) at) }
{
    let cut = low_size(frame.level, joined.key_len(at));
    let count = joined.count();
    let entries = joined.words_to(count) - joined.words_to(at);
    4 + (count - at + 3) / 4 + cut + frame.high + entries
}

/// How many words a page with all the entries would have.
pub fn all_used(joined: &Joined<'_>, frame: Frame) -> usize
    requires joined { (c : Content) × IsJoined joined.now c × IsFrame frame c }
    ensures used { (c : Content) → IsJoined joined.now c → IsFrame frame c → result ≡ used_words (with_entries c (joined_entries joined.now c)) }
{
    let count = joined.count();
    4 + (count + 3) / 4 + frame.low + frame.high + joined.words_to(count)
}

// How many words so many bytes take.
fn size(len: usize) -> usize
    requires { len < 2 ^ 32 }
    ensures small { result ≤ len }
    ensures size { result ≡ (len + 7) / 8 }
{
    (len + 7) / 8
}

// How many words the low fence takes: that of an inner page is its first key.
fn low_size(level: u8, len: usize) -> usize
    requires { len < 2 ^ 32 }
    ensures small { result ≤ len }
    ensures size { (low : List ℕ) → length low ≡ len → result ≡ length (low_words level low) }
{
    if level == 0 { size(len) } else { 0 }
}

// How many words the high fence takes.
fn high_size(high: &Option<KeyBuf>) -> usize
    ensures { result ≡ length (fence_words high.now) }
{
    match high {
        Some(high) => size(high.as_slice().len()),
        None => 0,
    }
}
