// Questions to the open transactions of all connections.
ghost use Rattle.std.specs.Prelude.{◌≡◌, ◌≢◌, ◌↔◌, ℕ, ◌<◌, ◌≤◌, ◌^◌, [], IsTrue, MatchOption, length, get_or, true, false};
ghost use Rattle.hc_core.specs.Keys.{IsShortKey};
ghost use Rattle.hc_core.specs.Account.{HasWritten, WhenOpen, txns};
ghost use Rattle.hc_core.specs.Machine.{Names};

use crate::Met;
use crate::conn::Conn;
use hc_base::Tid;
use hc_range::KeyBuf;

/// The id and the ordinal of a connection's open transaction, if it is undecided and has a key in its write set.
pub fn writer_in(conn: &Conn, key: &[u8]) -> Option<(u32, u32)>
    ensures { MatchOption result
        (WhenOpen (txns conn.now) (λ t. (t.place ≡ 0) × HasWritten t key.now) → ⊥)
        (λ writer. WhenOpen (txns conn.now) (λ t. (t.place ≡ 0) × HasWritten t key.now × (writer.0 ≡ t.id) × (writer.1 ≡ t.ord))) }
{
    let Some(running) = conn.running() else {
        return None;
    };
    if running.place != 0 {
        return None;
    }
    if !running.writes.has(key) {
        return None;
    }
    Some((running.tid, running.ord))
}

/// The undecided transaction of another connection that has a key in its write set, if there is one.
pub fn open_writer(conns: &[Conn], own: u32, key: &[u8]) -> Option<Met>
    requires short { IsShortKey key.now }
    requires few { length conns.now < 2 ^ 32 }
    ensures { MatchOption result
        ((i : ℕ) → i ≢ own → WhenOpen (txns (get_or conns.now i [])) (λ t. (t.place ≡ 0) × HasWritten t key.now) → ⊥)
        (λ met. WhenOpen (txns (get_or conns.now met.conn [])) (λ t. (t.place ≡ 0) × HasWritten t key.now × Names met met.conn t key.now)) }
{
    for conn in 0..conns.len() {
        if conn == own as usize {
            continue;
        }
        if let Some((tid, ord)) = writer_in(&conns[conn], key) {
            return Some(Met {
                tid: Tid(tid),
                conn: conn as u32,
                ord,
                key: KeyBuf::from_slice(key),
            });
        }
    }
    None
}

/// Whether a key is in the write set of an undecided transaction.
pub fn has_writer(conns: &[Conn], key: &[u8]) -> bool
    ensures yes { result ≡ true → (i : ℕ) × WhenOpen (txns (get_or conns.now i [])) (λ t. (t.place ≡ 0) × HasWritten t key.now) }
    ensures none { result ≡ false → (i : ℕ) → WhenOpen (txns (get_or conns.now i [])) (λ t. (t.place ≡ 0) × HasWritten t key.now) → ⊥ }
{
    for conn in 0..conns.len() {
        if let Some(_writer) = writer_in(&conns[conn], key) {
            return true;
        }
    }
    false
}

/// Whether a connection's open transaction does not see the commit at a place of the log.
pub fn sees_less(conn: &Conn, place: usize) -> bool
    ensures { IsTrue result ↔ WhenOpen (txns conn.now) (λ t. t.snapshot ≤ place) }
{
    match conn.running() {
        Some(running) => running.snapshot as usize <= place,
        None => false,
    }
}

/// Whether each open transaction sees the commit at a place of the log.
pub fn are_above(conns: &[Conn], place: usize) -> bool
    ensures { IsTrue result ↔ ((i : ℕ) → WhenOpen (txns (get_or conns.now i [])) (λ t. t.snapshot ≤ place) → ⊥) }
{
    for each in conns {
        if sees_less(each, place) {
            return false;
        }
    }
    true
}

/// The least snapshot of an open transaction, and a number at most.
pub fn least_snapshot(conns: &[Conn], most: usize) -> usize
    ensures { result ≤ most }
{
    let mut least = most;
    for each in conns {
        if let Some(running) = each.running() {
            least = least.min(running.snapshot as usize);
        }
    }
    least
}
