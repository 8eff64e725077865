// Questions to the log.
ghost use Rattle.std.specs.Prelude.{◌≡◌, ◌+◌, ◌-◌, ◌<◌, ◌≤◌, None, drop, length, MatchOption};
ghost use Rattle.hc_core.specs.Keys.{IsShortKey};
ghost use Rattle.hc_core.specs.Account.{part_of};
ghost use Rattle.hc_core.specs.Commits.{AreShort, AreShortWrites, HasNoTombstone, IsLastTombstone, IsLastWith, IsMetAbove, IsMetAt, IsMetBetween, IsNoneAbove, NoneIsWith, holds_tombstone, is_in, is_tombstone, least_between, least_of, least_with, lesser, writes_at};

use crate::commit::Commit;
use crate::running::has_key;
use crate::{Met, Write};
use hc_base::Tid;
use hc_range::{Bytes, KeyBuf, Range, contains, is_below};

// What the entry at a place puts.
fn writes_of(log: &[Commit], place: usize) -> &[Write]
    requires { place < length log.now }
    ensures { result.now ≡ writes_at log.now place }
{
    log[place].writes.as_slice()
}

// The place of the last entry that puts a key, of those from a place on.
fn newest_from(log: &[Commit], from: usize, key: &[u8]) -> Option<usize>
    ensures { MatchOption result (IsNoneAbove from key.now log.now) (λ place. IsLastWith key.now log.now place × (from ≤ place)) }
{
    let mut place = log.len();
    while place > from {
        place -= 1;
        if has_key(writes_of(log, place), key) {
            return Some(place);
        }
    }
    None
}

/// The place of the last entry that puts a key.
pub fn newest_with(log: &[Commit], key: &[u8]) -> Option<usize>
    ensures { MatchOption result (NoneIsWith key.now log.now) (λ place. IsLastWith key.now log.now place) }
{
    newest_from(log, 0, key)
}

/// Whether a key lies in a range.
pub fn lies_in(range: &Range, key: &[u8]) -> bool
    ensures { result ≡ is_in range.now key.now }
{
    contains(range, key)
}

// Whether a key lies in a part.
fn lies_between(from: &[u8], upto: &Option<Bytes>, key: &[u8]) -> bool
    ensures { result ≡ is_in (part_of from.now upto.now) key.now }
{
    if is_below(key, from) {
        return false;
    }
    match upto {
        Some(end) => is_below(key, end.as_slice()),
        None => true,
    }
}

// The lesser of the best key so far and a key.
fn lesser(best: Option<KeyBuf>, key: &[u8]) -> Option<KeyBuf>
    requires { IsShortKey key.now }
    ensures { result ≡ lesser best key.now }
{
    match best {
        Some(least) if !is_below(key, least.as_slice()) => Some(least),
        _ => Some(KeyBuf::from_slice(key)),
    }
}

// The least key of the range among the writes, and the best so far.
fn least_among(
    best: Option<KeyBuf>,
    writes: &[Write],
    from: &[u8],
    upto: &Option<Bytes>,
) -> Option<KeyBuf>
    requires { AreShortWrites writes.now }
    ensures { result ≡ least_with (part_of from.now upto.now) best writes.now }
{
    let mut least = best;
    for write in writes {
        let key = write.key.as_slice();
        if lies_between(from, upto, key) {
            least = lesser(least, key);
        }
    }
    least
}

// The least key of a part that the entries put.
fn least_key(log: &[Commit], from: &[u8], upto: &Option<Bytes>) -> Option<KeyBuf>
    requires { AreShort log.now }
    ensures { result ≡ least_of (part_of from.now upto.now) None log.now }
{
    let mut least = None;
    for commit in log {
        least = least_among(least, commit.writes.as_slice(), from, upto);
    }
    least
}

// Whether a write puts a tombstone at a key.
fn is_tombstone(write: &Write, key: &[u8]) -> bool
    ensures { result ≡ is_tombstone key.now write.now }
{
    match write.rec {
        Some(_) => false,
        None => write.key.as_slice() == key,
    }
}

/// Whether a tombstone of the key is among the writes.
pub fn puts_tombstone(writes: &[Write], key: &[u8]) -> bool
    ensures { result ≡ holds_tombstone key.now writes.now }
{
    writes.iter().any(|write| is_tombstone(write, key))
}

// The least key of a part that the entries from a place on put.
fn least_after(log: &[Commit], place: usize, from: &[u8], upto: &Option<Bytes>) -> Option<KeyBuf>
    requires { AreShort log.now }
    ensures { result ≡ least_of (part_of from.now upto.now) None (drop place log.now) }
{
    if place >= log.len() {
        return None;
    }
    least_key(&log[place..], from, upto)
}

// The entry at a place, as a refusal names it with a key.
fn met_at(log: &[Commit], place: usize, key: KeyBuf) -> Met
    requires { place < length log.now }
    ensures { IsMetAt log.now place key result }
{
    let commit = &log[place];
    Met {
        tid: Tid(commit.tid),
        conn: commit.conn,
        ord: commit.ord,
        key,
    }
}

/// What a check of a part finds: the least key of it that the commits above a snapshot and below a
/// commit number put, and the last one of them that put it.
pub fn found_between(
    log: &[Commit],
    snapshot: usize,
    number: usize,
    from: &[u8],
    upto: &Option<Bytes>,
) -> Option<Met>
    requires number { (0 < number) × (number ≤ length log.now + 1) }
    requires short { AreShort log.now }
    ensures { MatchOption result (least_between snapshot number (part_of from.now upto.now) log.now ≡ None) (λ met. IsMetBetween snapshot number (part_of from.now upto.now) log.now met) }
{
    let front = &log[..number - 1];
    let Some(key) = least_after(front, snapshot, from, upto) else {
        return None;
    };
    let Some(place) = newest_with(front, key.as_slice()) else {
        unreachable!()
    };
    Some(met_at(log, place, key))
}

/// What a put of a key meets in the log: the last commit that put it, if that is above a snapshot. It looks at the commits
/// above the snapshot alone.
pub fn met_above(log: &[Commit], snapshot: usize, key: &[u8]) -> Option<Met>
    requires { IsShortKey key.now }
    ensures { MatchOption result (IsNoneAbove snapshot key.now log.now) (λ met. IsMetAbove snapshot key.now log.now met) }
{
    let Some(place) = newest_from(log, snapshot, key) else {
        return None;
    };
    Some(met_at(log, place, KeyBuf::from_slice(key)))
}

/// The place of the last entry that puts a key, if it puts a tombstone.
pub fn newest_tombstone(log: &[Commit], key: &[u8]) -> Option<usize>
    ensures { MatchOption result (HasNoTombstone key.now log.now) (λ place. IsLastTombstone key.now log.now place) }
{
    let Some(place) = newest_with(log, key) else {
        return None;
    };
    if !puts_tombstone(writes_of(log, place), key) {
        return None;
    }
    Some(place)
}
