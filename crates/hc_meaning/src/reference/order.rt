// How the printed numbers of the connections lie.
ghost use Rattle.std.specs.Prelude.{◌≡◌, ◌≢◌, ◌↔◌, ◌<◌, ◌≤◌, ℕ, Contains, IsTrue, Some, length, slice_get};
ghost use Rattle.hc_transcript.specs.Text.{ending_number};
ghost use Rattle.hc_meaning.specs.RightOutput.{IsCommitted, IsInOrder};
ghost use Rattle.hc_meaning.specs.declared.transaction.Transaction.{Transaction};

use crate::reference::shown::Shown;
use hc_transcript::Ending;

/// Whether no number falls within a connection, each commit number is above the earlier ones, the
/// setup's commits are the first, and every number of another connection counts them all.
pub fn is_in_order(transactions: &[Shown<'_>], history: &[Shown<'_>]) -> bool
    ensures { IsTrue result ↔ IsInOrder transactions.now history.now }
{
    let setup = setup_of(history);
    if !numbers_rise(transactions) {
        return false;
    }
    if !is_setup_first(history, setup) {
        return false;
    }
    others_count_setup(transactions, setup)
}

// How many transactions of connection 0 the history begins with.
fn setup_of(history: &[Shown<'_>]) -> usize
    ensures within { result ≤ length history.now }
    ensures first { (k : ℕ) (t : Transaction) → slice_get history.now k ≡ Some t → k < result → t.conn ≡ 0 }
    ensures end { (t : Transaction) → slice_get history.now result ≡ Some t → t.conn ≢ 0 }
{
    for (k, transaction) in history.iter().enumerate() {
        if transaction.conn() != 0 {
            return k;
        }
    }
    history.len()
}

fn is_setup_first(history: &[Shown<'_>], setup: usize) -> bool
    ensures { IsTrue result ↔ ((k : ℕ) (t : Transaction) → slice_get history.now k ≡ Some t → (t.conn ≡ 0) ↔ (k < setup)) }
{
    for (k, transaction) in history.iter().enumerate() {
        if (transaction.conn() == 0) != (k < setup) {
            return false;
        }
    }
    true
}

fn others_count_setup(transactions: &[Shown<'_>], setup: usize) -> bool
    ensures { IsTrue result ↔ ((t : Transaction) → Contains transactions.now t → t.conn ≢ 0 → setup ≤ ending_number t.ending) }
{
    for transaction in transactions {
        if transaction.conn() != 0 && (number(transaction.ending()) as usize) < setup {
            return false;
        }
    }
    true
}

fn numbers_rise(transactions: &[Shown<'_>]) -> bool
    ensures { IsTrue result ↔ ((t u : Transaction) → Contains transactions.now t → Contains transactions.now u
        → t.conn ≡ u.conn → t.ordinal < u.ordinal
        → (ending_number t.ending ≤ ending_number u.ending) × (IsCommitted u.ending → ending_number t.ending < ending_number u.ending)) }
{
    for transaction in transactions {
        if !each_may_follow(transaction, transactions) {
            return false;
        }
    }
    true
}

fn each_may_follow(earlier: &Shown<'_>, transactions: &[Shown<'_>]) -> bool
    ensures { IsTrue result ↔ ((u : Transaction) → Contains transactions.now u
        → earlier.now.conn ≡ u.conn → earlier.now.ordinal < u.ordinal
        → (ending_number earlier.now.ending ≤ ending_number u.ending) × (IsCommitted u.ending → ending_number earlier.now.ending < ending_number u.ending)) }
{
    for later in transactions {
        if earlier.conn() == later.conn()
            && earlier.ordinal() < later.ordinal()
            && !may_follow(earlier.ending(), later.ending())
        {
            return false;
        }
    }
    true
}

// Whether a later ending of the same connection may be this one.
fn may_follow(earlier: Ending, later: Ending) -> bool
    ensures { IsTrue result ↔ ((ending_number earlier ≤ ending_number later) × (IsCommitted later → ending_number earlier < ending_number later)) }
{
    match later {
        Ending::Commit(k) => number(earlier) < k,
        Ending::Snapshot(s) | Ending::RolledBack(s) => number(earlier) <= s,
    }
}

fn number(ending: Ending) -> u32
    ensures { result ≡ ending_number ending }
{
    match ending {
        Ending::Commit(n) | Ending::Snapshot(n) | Ending::RolledBack(n) => n,
    }
}
