//! The end of the log, looked for from what a seat has seen.
ghost use Rattle.std.specs.Prelude.{◌≡◌, ◌<◌, ◌≤◌, ◌+◌, true, IfSome, IfNone};
ghost use Rattle.hc_rows.specs.Places.{HasPlace, log_at};
ghost use Rattle.hc_rule.specs.Views.{bare};
ghost use Rattle.hc_rule.specs.Kinds.LoadPage.{with_found};
ghost use Rattle.hc_rule.specs.Kinds.LoadLog.{Begins, Proposes, Asks, at_end};
ghost use Rattle.hc_steps.specs.Same.{IsSame};
ghost use Rattle.hc_tidlog.specs.Looking.{Looked, FindsEmpty, FindsEnd, LooksAt, Narrows, MayBegin, Began, MayPropose, Proposed};

use hc_base::Cid;
use hc_steps::Grip;

// Whether a place of the log is taken. Then the seat has seen the log up to there. Else it notes that the place is empty.
fn is_taken(grip: &mut Grip<'_>, c: Cid) -> bool
    requires place { HasPlace grip.old.layout c.0 }
    ensures looked { LooksAt grip.old.layout c.0 grip.old.seat.me.0 result grip.new.seat.me.0 }
    ensures same { IsSame grip.old grip.new }
{
    match grip.load_log(c) {
        Some(_) => true,
        None => false,
    }
}

/// Looks for the end of the log, so that the seat has seen what is committed: in steps that double from what it has seen, and
/// then by halving. A load finds the word after all that the seat has seen then to be empty.
pub fn find_end(grip: &mut Grip<'_>)
    ensures end { FindsEnd grip.old.layout grip.old.seat.me.0 grip.new.seat.me.0 }
    ensures same { IsSame grip.old grip.new }
{
    let upto = double(grip);
    halve(grip, upto);
}

// Looks at places at distances 1, 2, 4 and so on, and at the last one, which is never taken, where that is nearer, up to one that
// is empty.
fn double(grip: &mut Grip<'_>) -> u32
    ensures empty { FindsEmpty grip.old.layout result grip.old.seat.me.0 grip.new.seat.me.0 }
    ensures upto { result ≤ grip.old.layout.transactions + 1 }
    ensures above { grip.new.seat.me.0.seen.0 < result }
    ensures same { IsSame grip.old grip.new }
{
    let last = grip.layout.transactions;
    let mut step = 1u32;
    'steps: loop {
        let seen = grip.seen().0;
        let c = seen + step.min(last + 1 - seen);
        if !is_taken(grip, Cid(c)) {
            return c;
        }
        step = step.saturating_mul(2);
    }
}

// Looks half way between what the seat has seen and a place that is empty, until no place is between them.
fn halve(grip: &mut Grip<'_>, upto: u32)
    requires upto { upto ≤ grip.old.layout.transactions + 1 }
    requires above { grip.old.seat.me.0.seen.0 < upto }
    ensures narrows { Narrows grip.old.layout upto (grip.new.seat.me.0.seen.0 + 1) grip.old.seat.me.0 grip.new.seat.me.0 }
    ensures same { IsSame grip.old grip.new }
{
    let mut high = upto;
    'halves: while grip.seen().0 + 1 < high {
        let seen = grip.seen().0;
        let middle = seen + (high - seen) / 2;
        if !is_taken(grip, Cid(middle)) {
            high = middle;
        }
    }
}

/// How many transactions are committed. It is what the seat has seen then: what it had seen before, or up to a place that was
/// found taken; and a load found the next word empty. So as many were committed at some moment of the call.
pub fn log_end(grip: &mut Grip<'_>) -> Cid
    ensures seen { result ≡ grip.new.seat.me.0.seen }
    ensures end { FindsEmpty grip.old.layout (result.0 + 1) grip.old.seat.me.0 grip.new.seat.me.0 }
    ensures same { IsSame grip.old grip.new }
{
    find_end(grip);
    grip.seen()
}

// Begins a transaction where the word after all that the seat has seen is found empty: its snapshot is what the seat has
// seen. Else the seat has seen more, and nothing has begun.
fn try_begin(grip: &mut Grip<'_>) -> Option<Cid>
    requires may { Asks Begins (grip.old.seat.me.0.seen.0 + 1) grip.old.seat.me.0 }
    ensures begun { IfSome result (λ s. (s ≡ grip.old.seat.me.0.seen) × (grip.new.seat.me ≡ bare (at_end Begins grip.old.conn (with_found (log_at grip.old.layout (grip.old.seat.me.0.seen.0 + 1)) 0 grip.old.seat.me.0)))) }
    ensures looked { IfNone result (LooksAt grip.old.layout (grip.old.seat.me.0.seen.0 + 1) grip.old.seat.me.0 true grip.new.seat.me.0) }
    ensures same { IsSame grip.old grip.new }
{
    let seen = grip.seen();
    match grip.load_log(Cid(seen.0 + 1)) {
        None => Some(seen),
        Some(_) => None,
    }
}

// Proposes the number after all that the seat has seen, where its word is found empty. Else the seat has seen more, and
// nothing is proposed.
fn try_propose(grip: &mut Grip<'_>) -> Option<Cid>
    requires may { Asks Proposes (grip.old.seat.me.0.seen.0 + 1) grip.old.seat.me.0 }
    ensures proposed { IfSome result (λ c. (c.0 ≡ grip.old.seat.me.0.seen.0 + 1) × (grip.new.seat.me ≡ bare (at_end Proposes grip.old.conn (with_found (log_at grip.old.layout (grip.old.seat.me.0.seen.0 + 1)) 0 grip.old.seat.me.0)))) }
    ensures place { IfSome result (λ c. HasPlace grip.old.layout c.0) }
    ensures looked { IfNone result (LooksAt grip.old.layout (grip.old.seat.me.0.seen.0 + 1) grip.old.seat.me.0 true grip.new.seat.me.0) }
    ensures same { IsSame grip.old grip.new }
{
    let seen = grip.seen();
    let c = Cid(seen.0 + 1);
    match grip.load_log(c) {
        None => Some(c),
        Some(_) => None,
    }
}

/// Proposes the log's end plus 1 for the transaction, at the last load. It has drawn an id and is undecided.
pub fn propose(grip: &mut Grip<'_>) -> Cid
    requires may { MayPropose grip.old.seat.me.0 }
    ensures proposed { Proposed grip.old.layout grip.old.conn grip.old.seat.me.0 result grip.new.seat.me.0 }
    ensures place { HasPlace grip.old.layout result.0 }
    ensures same { IsSame grip.old grip.new }
{
    find_end(grip);
    'looks: loop {
        if let Some(c) = try_propose(grip) {
            return c;
        }
    }
}

/// Begins a transaction whose snapshot is the log's end, as the last load finds it. The seat is starting.
pub fn begin(grip: &mut Grip<'_>) -> Cid
    requires may { MayBegin grip.old.seat.me.0 }
    ensures begun { Began grip.old.layout grip.old.conn grip.old.seat.me.0 result grip.new.seat.me.0 }
    ensures same { IsSame grip.old grip.new }
{
    find_end(grip);
    'looks: loop {
        if let Some(snapshot) = try_begin(grip) {
            return snapshot;
        }
    }
}
