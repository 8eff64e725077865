// How the printed numbers of the connections lie.
ghost use Rattle.std.specs.Prelude.{◌≡◌, ◌≢◌, ◌↔◌, ◌<◌, ◌≤◌, ℕ, IsTrue, Some, length, slice_get};
ghost use Rattle.hc_base.specs.Lookup.{Among};
ghost use Rattle.hc_transcript.specs.Text.{ending_number};
ghost use Rattle.hc_meaning.specs.Runs.Cut.{Transaction};
ghost use Rattle.hc_meaning.specs.Runs.RightRun.{IsInOrder};
ghost use Rattle.hc_verdict.specs.Orders.{CountsSetup, IsSetupFirst, MayFollow, NumbersRise, Rises};

use crate::history::Entry;
use hc_judge::Shown;
use hc_transcript::Ending;

/// Whether no number falls within a connection, each commit number is above the earlier ones, the
/// setup's commits are the first, and every number of another connection counts them all.
pub fn is_in_order(transactions: &[Shown<'_>], history: &[Entry<'_, '_>]) -> bool
    ensures { IsTrue result ↔ IsInOrder transactions.now history.now }
{
    let setup = setup_of(history);
    if !numbers_rise(transactions) {
        return false;
    }
    if !is_setup_first(history, setup) {
        return false;
    }
    others_count_setup(transactions, setup)
}

// How many transactions of connection 0 the history begins with.
fn setup_of(history: &[Entry<'_, '_>]) -> usize
    ensures within { result ≤ length history.now }
    ensures first { (k : ℕ) (t : Transaction) → slice_get history.now k ≡ Some t → k < result → t.conn ≡ 0 }
    ensures end { (t : Transaction) → slice_get history.now result ≡ Some t → t.conn ≢ 0 }
{
    for (k, transaction) in history.iter().enumerate() {
        if transaction.conn() != 0 {
            return k;
        }
    }
    history.len()
}

fn is_setup_first(history: &[Entry<'_, '_>], setup: usize) -> bool
    ensures { IsTrue result ↔ IsSetupFirst history.now setup }
{
    for (k, transaction) in history.iter().enumerate() {
        if (transaction.conn() == 0) != (k < setup) {
            return false;
        }
    }
    true
}

fn others_count_setup(transactions: &[Shown<'_>], setup: usize) -> bool
    ensures { IsTrue result ↔ ((t : Transaction) → Among t transactions.now → CountsSetup setup t) }
{
    for transaction in transactions {
        if transaction.conn() != 0 && (number(transaction.ending()) as usize) < setup {
            return false;
        }
    }
    true
}

fn numbers_rise(transactions: &[Shown<'_>]) -> bool
    ensures { IsTrue result ↔ NumbersRise transactions.now }
{
    for transaction in transactions {
        if !each_may_follow(transaction, transactions) {
            return false;
        }
    }
    true
}

fn each_may_follow(earlier: &Shown<'_>, transactions: &[Shown<'_>]) -> bool
    ensures { IsTrue result ↔ ((u : Transaction) → Among u transactions.now → MayFollow earlier.now u) }
{
    for later in transactions {
        if !may_follow(earlier, later) {
            return false;
        }
    }
    true
}

fn may_follow(earlier: &Shown<'_>, later: &Shown<'_>) -> bool
    ensures { IsTrue result ↔ MayFollow earlier.now later.now }
{
    if earlier.conn() != later.conn() || earlier.before() >= later.before() {
        return true;
    }
    rises(earlier, later)
}

// Whether the later number may come after the earlier one.
fn rises(earlier: &Shown<'_>, later: &Shown<'_>) -> bool
    ensures { IsTrue result ↔ Rises earlier.now later.now }
{
    match later.ending() {
        Ending::Commit(k) => number(earlier.ending()) < k,
        Ending::Snapshot(s) | Ending::RolledBack(s) => number(earlier.ending()) <= s,
    }
}

fn number(ending: Ending) -> u32
    ensures { result ≡ ending_number ending }
{
    match ending {
        Ending::Commit(n) | Ending::Snapshot(n) | Ending::RolledBack(n) => n,
    }
}
