// Whether transactions answered as the databases say on which they ran.
ghost use Rattle.std.specs.Prelude.{◌≡◌, ◌≢◌, ◌↔◌, ℤ, All, IfOk, IsTrue, IsFalse};
ghost use Rattle.hc_meaning.specs.Database.{value_at};
ghost use Rattle.hc_meaning.specs.History.{IsLegal, IsLegalAt};
ghost use Rattle.hc_meaning.specs.RightOutput.{IsReadAt, IsReadUnlessCommitted, OthersAreRead};

use crate::reference::replay::state;
use crate::reference::rows::value_at;
use crate::reference::shown::Shown;
use hc_transcript::Ending;
use hc_value::NoMemory;
use std::alloc::Global;

/// Whether each transaction of a history gives its replies, and changes something, on the database that
/// the earlier ones leave.
pub fn is_legal(alloc: Global, history: &[Shown<'_>]) -> Result<bool, NoMemory>
    ensures { IfOk result (λ legal. IsTrue legal ↔ IsLegal history.now) }
{
    for (k, transaction) in history.iter().enumerate() {
        let before = state(alloc, history, k)?;
        if !is_legal_at(alloc, before.as_slice(), transaction)? {
            return Ok(false);
        }
    }
    Ok(true)
}

fn is_legal_at(
    alloc: Global,
    before: &[(i64, i64)],
    transaction: &Shown<'_>,
) -> Result<bool, NoMemory>
    ensures { IfOk result (λ legal. IsTrue legal ↔ IsLegalAt before.now transaction.now) }
{
    let ran = transaction.run_on(alloc, before)?;
    Ok(transaction.answered(&ran) && differ(before, ran.db.as_slice()))
}

/// Whether each transaction that was not committed gives its replies on the database after as many
/// commits as it prints, and prints a snapshot only where it has nothing to commit.
pub fn others_are_read(
    alloc: Global,
    transactions: &[Shown<'_>],
    history: &[Shown<'_>],
) -> Result<bool, NoMemory>
    ensures { IfOk result (λ read. IsTrue read ↔ OthersAreRead transactions.now history.now) }
{
    for transaction in transactions {
        if !is_read(alloc, history, transaction)? {
            return Ok(false);
        }
    }
    Ok(true)
}

fn is_read(alloc: Global, history: &[Shown<'_>], transaction: &Shown<'_>) -> Result<bool, NoMemory>
    ensures { IfOk result (λ read. IsTrue read
        ↔ IsReadUnlessCommitted history.now transaction.now transaction.now.ending) }
{
    match transaction.ending() {
        Ending::Commit(_) => Ok(true),
        Ending::Snapshot(s) | Ending::RolledBack(s) => is_read_at(alloc, history, s, transaction),
    }
}

fn is_read_at(
    alloc: Global,
    history: &[Shown<'_>],
    s: u32,
    transaction: &Shown<'_>,
) -> Result<bool, NoMemory>
    ensures { IfOk result (λ read. IsTrue read ↔ IsReadAt history.now s transaction.now) }
{
    if s as usize > history.len() {
        return Ok(false);
    }
    let before = state(alloc, history, s as usize)?;
    let ran = transaction.run_on(alloc, before.as_slice())?;
    if !transaction.answered(&ran) {
        return Ok(false);
    }
    Ok(transaction.ending() != Ending::Snapshot(s) || !differ(before.as_slice(), ran.db.as_slice()))
}

// Whether two databases have different values at some id.
fn differ(before: &[(i64, i64)], after: &[(i64, i64)]) -> bool
    ensures some { IsTrue result → (id : ℤ) × (value_at after.now id ≢ value_at before.now id) }
    ensures none { IsFalse result → (id : ℤ) → value_at after.now id ≡ value_at before.now id }
{
    differ_at_ids_of(before, before, after) || differ_at_ids_of(after, before, after)
}

// Whether they do at the id of one of these rows.
fn differ_at_ids_of(rows: &[(i64, i64)], before: &[(i64, i64)], after: &[(i64, i64)]) -> bool
    ensures some { IsTrue result → (id : ℤ) × (value_at after.now id ≢ value_at before.now id) }
    ensures none { IsFalse result → All (λ row. value_at after.now row.0 ≡ value_at before.now row.0) rows.now }
{
    for row in rows {
        if !same(value_at(after, row.0), value_at(before, row.0)) {
            return true;
        }
    }
    false
}

fn same(a: Option<i64>, b: Option<i64>) -> bool
    ensures { IsTrue result ↔ (a ≡ b) }
{
    match (a, b) {
        (Some(m), Some(n)) => m == n,
        (None, None) => true,
        _ => false,
    }
}
