// The history of transactions, found by their commit numbers.
ghost use Rattle.std.specs.Prelude.{◌≡◌, ◌↔◌, ◌<◌, ◌≤◌, ℕ, List, IfOk, IsTrue, MatchOption};
ghost use Rattle.hc_base.specs.Lookup.{Among};
ghost use Rattle.hc_transcript.specs.declared.reply.Ending.TheVariants.{Commit};
ghost use Rattle.hc_meaning.specs.Runs.Commits.{IsHistory};
ghost use Rattle.hc_meaning.specs.Runs.Cut.{Transaction};
ghost use Rattle.hc_verdict.specs.Histories.{DifferByName, IsPlaced, IsToldByName};

use hc_judge::Shown;
use hc_transcript::Ending;
use hc_value::NoMemory;
use sqlite_items::at;
use std::alloc::Global;
use std::marker::Model;

/// A transaction at its place in a history. Contracts see the `Transaction`.
#[derive(Drop)]
pub struct Entry<'b, 'a> {
    shown: &'b Shown<'a>,
}

impl<'b, 'a> Model for Entry<'b, 'a> {
    ghost use Rattle.hc_ast.specs.contracts.expression.Expr as expr;
    ghost use Rattle.std.specs.Coded.{codes};
    ghost use Rattle.hc_meaning.specs.Runs.Cut.{Transaction};

    ghost Value = { Transaction };

    ghost coded = { Prim.hlevel (codes, expr.the_row.coded) };

    ghost view = { λ e. e.shown.now };
}

impl<'b, 'a> Entry<'b, 'a> {
    fn new(shown: &'b Shown<'a>) -> Entry<'b, 'a>
        ensures { result ≡ shown.now }
    {
        Entry { shown }
    }

    /// The number of its connection.
    pub fn conn(&self) -> u32
        ensures { result ≡ self.now.conn }
    {
        self.shown.conn()
    }

    // Whether it has the name of a transaction.
    fn has_name_of(&self, other: &Shown<'_>) -> bool
        ensures { IsTrue result ↔ ((self.now.conn ≡ other.now.conn) × (self.now.ordinal ≡ other.now.ordinal)) }
    {
        self.shown.conn() == other.conn() && self.shown.before() == other.before()
    }
}

/// The committed transactions in the order of their commit numbers, or `None` where the numbers are not
/// 1 to n, each once.
///
/// # Errors
///
/// `NoMemory` where an allocation is refused.
pub fn find_history<'b, 'a>(
    alloc: Global,
    transactions: &'b [Shown<'a>],
) -> Result<Option<Vec<Entry<'b, 'a>>>, NoMemory>
    requires { DifferByName transactions.now }
    ensures { IfOk result (λ found. MatchOption found
        ((history : List Transaction) → IsHistory transactions.now history → ⊥)
        (λ history. IsHistory transactions.now history.items)) }
{
    let mut history = Vec::new(alloc);
    for k in 0..last_commit(transactions) {
        let Some(transaction) = with_commit(transactions, k + 1) else {
            return Ok(None);
        };
        history.push(transaction)?;
    }
    if !each_is_placed(transactions, history.as_slice()) {
        return Ok(None);
    }
    Ok(Some(history))
}

// The greatest commit number, or 0 where there is none.
fn last_commit(transactions: &[Shown<'_>]) -> u32
    ensures greatest { (k : ℕ) (t : Transaction) → Among t transactions.now → t.ending ≡ Commit k → k ≤ result }
    ensures printed { 0 < result → (t : Transaction) × Among t transactions.now × (t.ending ≡ Commit result) }
{
    let mut last = 0;
    for transaction in transactions {
        let k = commit_number(transaction.ending());
        if last < k {
            last = k;
        }
    }
    last
}

// The number of a commit, and 0 of another ending.
fn commit_number(ending: Ending) -> u32
    ensures of_a_commit { (k : ℕ) → ending ≡ Commit k → result ≡ k }
    ensures of_another { 0 < result → ending ≡ Commit result }
{
    match ending {
        Ending::Commit(k) => k,
        Ending::Snapshot(_) | Ending::RolledBack(_) => 0,
    }
}

// A transaction that printed this commit number.
fn with_commit<'b, 'a>(transactions: &'b [Shown<'a>], k: u32) -> Option<Entry<'b, 'a>>
    ensures { MatchOption result
        ((t : Transaction) → Among t transactions.now → t.ending ≡ Commit k → ⊥)
        (λ t. Among t transactions.now × (t.ending ≡ Commit k)) }
{
    for transaction in transactions {
        if is_commit(transaction, k) {
            return Some(Entry::new(transaction));
        }
    }
    None
}

fn is_commit(transaction: &Shown<'_>, k: u32) -> bool
    ensures { IsTrue result ↔ (transaction.now.ending ≡ Commit k) }
{
    transaction.ending() == Ending::Commit(k)
}

// Whether each that printed a commit number is at its place.
fn each_is_placed(transactions: &[Shown<'_>], history: &[Entry<'_, '_>]) -> bool
    requires { (t : Transaction) → Among t transactions.now → IsToldByName history.now t }
    ensures { IsTrue result ↔ ((t : Transaction) → Among t transactions.now → IsPlaced history.now t) }
{
    for transaction in transactions {
        if !is_placed(transaction, history) {
            return false;
        }
    }
    true
}

fn is_placed(transaction: &Shown<'_>, history: &[Entry<'_, '_>]) -> bool
    requires { IsToldByName history.now transaction.now }
    ensures { IsTrue result ↔ IsPlaced history.now transaction.now }
{
    let Ending::Commit(k) = transaction.ending() else {
        return true;
    };
    if k == 0 {
        return false;
    }
    match at(history, k as usize - 1) {
        Some(placed) => placed.has_name_of(transaction),
        None => false,
    }
}
