// Savepoints by name.
ghost use Rattle.std.specs.Prelude.{◌≡◌, ◌≢◌, ℕ, [], ◌∷◌, IsTrue, ◌↔◌, MatchOption};
ghost use Rattle.hc_txn.specs.Marks.{has_same_name, kept_from};
ghost use Rattle.hc_txn.specs.declared.marks.MarkAt.{MarkAt};
ghost use Rattle.std.specs.Prelude.{string_bytes, List};

use hc_text::is_same_name;
use std::collections::LinkedList;

/// A savepoint: its name, and how many own writes stood as it was set.
#[derive(Debug, Drop)]
pub struct MarkAt {
    pub name: String,
    pub count: usize,
}

fn is_named(mark: &MarkAt, name: &str) -> bool
    ensures { result ≡ has_same_name (string_bytes mark.now.name) name.now }
{
    is_same_name(mark.name.as_str(), name)
}

/// Whether a mark has a name.
pub fn has_mark(marks: &LinkedList<MarkAt>, name: &str) -> bool
    ensures { IsTrue result ↔ (kept_from name.now marks.now ≢ []) }
{
    for mark in marks {
        if is_named(mark, name) {
            return true;
        }
    }
    false
}

/// Takes off the marks inside the innermost one of a name, and answers how many writes stood as that one was set. Where no
/// mark has the name all are taken off, and there is no answer.
pub fn leave_inner(marks: &mut LinkedList<MarkAt>, name: &str) -> Option<usize>
    ensures left { marks.new ≡ kept_from name.now marks.old }
    ensures count { MatchOption result (marks.new ≡ []) (λ count. (mark : MarkAt) × (outer : List MarkAt) × (marks.new ≡ mark ∷ outer) × (count ≡ mark.count)) }
{
    while let Some(mark) = marks.front() {
        if is_named(mark, name) {
            return Some(mark.count);
        }
        marks.pop_front();
    }
    None
}
