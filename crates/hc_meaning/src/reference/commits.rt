// The history of transactions, found by their commit numbers.
ghost use Rattle.std.specs.Prelude.{◌≡◌, ◌↔◌, ◌+◌, ◌-◌, ◌<◌, ◌≤◌, ℕ, List, Contains, IfOk, IsTrue, MatchOption, Some, slice_get};
ghost use Rattle.hc_meaning.specs.History.{IsHistory};
ghost use Rattle.hc_meaning.specs.declared.transaction.Transaction.{Transaction};

use crate::reference::shown::Shown;
use hc_transcript::Ending;
use hc_value::NoMemory;
use sqlite_items::at;
use std::alloc::Global;

/// The committed transactions in the order of their commit numbers, or `None` where the numbers are not
/// 1 to n, each once.
pub fn history<'a>(
    alloc: Global,
    transactions: &[Shown<'a>],
) -> Result<Option<Vec<Shown<'a>>>, NoMemory>
    ensures { IfOk result (λ found. MatchOption found
        ((history : List Transaction) → IsHistory transactions.now history → ⊥)
        (λ history. IsHistory transactions.now history.items)) }
{
    let mut history = Vec::new(alloc);
    for k in 0..last_commit(transactions) {
        let Some(transaction) = with_commit(transactions, k + 1) else {
            return Ok(None);
        };
        history.push(transaction)?;
    }
    if !each_is_placed(transactions, history.as_slice()) {
        return Ok(None);
    }
    Ok(Some(history))
}

// The greatest commit number, or 0 where there is none.
fn last_commit(transactions: &[Shown<'_>]) -> u32
    ensures greatest { (k : ℕ) (t : Transaction) → Contains transactions.now t → t.ending ≡ Ending.Commit k → k ≤ result }
    ensures printed { 0 < result → (t : Transaction) × Contains transactions.now t × (t.ending ≡ Ending.Commit result) }
{
    let mut last = 0;
    for transaction in transactions {
        let k = commit_number(transaction.ending());
        if last < k {
            last = k;
        }
    }
    last
}

// The number of a commit, and 0 of another ending.
fn commit_number(ending: Ending) -> u32
    ensures of_a_commit { (k : ℕ) → ending ≡ Ending.Commit k → result ≡ k }
    ensures of_another { 0 < result → ending ≡ Ending.Commit result }
{
    match ending {
        Ending::Commit(k) => k,
        Ending::Snapshot(_) | Ending::RolledBack(_) => 0,
    }
}

// A transaction that printed this commit number.
fn with_commit<'a>(transactions: &[Shown<'a>], k: u32) -> Option<Shown<'a>>
    ensures { MatchOption result
        ((t : Transaction) → Contains transactions.now t → t.ending ≡ Ending.Commit k → ⊥)
        (λ t. Contains transactions.now t × (t.ending ≡ Ending.Commit k)) }
{
    for transaction in transactions {
        if transaction.ending() == Ending::Commit(k) {
            return Some(transaction.again());
        }
    }
    None
}

// Whether each that printed a commit number is at its place.
fn each_is_placed(transactions: &[Shown<'_>], history: &[Shown<'_>]) -> bool
    ensures { IsTrue result ↔ ((k : ℕ) (t : Transaction) → Contains transactions.now t → t.ending ≡ Ending.Commit k
        → (0 < k) × (slice_get history.now (k - 1) ≡ Some t)) }
{
    for transaction in transactions {
        if !is_placed(transaction, history) {
            return false;
        }
    }
    true
}

fn is_placed(transaction: &Shown<'_>, history: &[Shown<'_>]) -> bool
    ensures { IsTrue result ↔ ((k : ℕ) → transaction.now.ending ≡ Ending.Commit k
        → (0 < k) × (slice_get history.now (k - 1) ≡ Some transaction.now)) }
{
    let Ending::Commit(k) = transaction.ending() else {
        return true;
    };
    if k == 0 {
        return false;
    }
    match at(history, k as usize - 1) {
        Some(placed) => placed.is_same(transaction),
        None => false,
    }
}
