//! Transaction ids: each is drawn once, and without a gap.
ghost use Rattle.std.specs.Prelude.{◌≡◌, ◌<◌, ◌≤◌, ◌+◌, IfOk, IfErr};
ghost use Rattle.hc_base.specs.declared.full.Full.TheVariants.{Transactions};
ghost use Rattle.hc_rows.specs.Places.{HasTid};
ghost use Rattle.hc_steps.specs.Same.{IsSame};
ghost use Rattle.hc_tidlog.specs.Seeking.{Reached, LookedAt, CanDraw, DrewNext, FoundDrawn};

use hc_base::{Full, Tid, TidWord};
use hc_steps::Grip;

/// Draws the first id that nobody has drawn, with this ordinal, for a transaction that has none. `Full` comes where a step of
/// this call found the last id drawn.
pub fn draw_id(grip: &mut Grip<'_>, ord: u32) -> Result<Tid, Full>
    requires may { CanDraw ord grip.old.seat.me.0 }
    ensures drew { IfOk result (λ t. HasTid grip.old.layout t.0 × DrewNext grip.old.layout grip.old.conn ord grip.old.seat.me.0 t.0 grip.new.seat.me.0) }
    ensures full { IfErr result (λ full. full ≡ Transactions grip.old.layout.transactions) }
    ensures cause { IfErr result (λ _. FoundDrawn grip.old.layout grip.old.layout.transactions grip.old.seat.me.0 grip.new.seat.me.0) }
    ensures same { IsSame grip.old grip.new }
{
    let last = grip.layout.transactions;
    let mut low = last_drawn(grip);
    'ids: while low < last {
        let t = Tid(low + 1);
        if grip.draw(t, ord) {
            return Ok(t);
        }
        low += 1;
    }
    Err(Full::Transactions(last))
}

// Ids between which a search goes on: the lower one was found drawn, or is 0, and the higher one was not, or is past the last.
#[derive(Clone, Copy)]
struct Span {
    low: u32,
    high: u32,
}

// The greatest id that is found drawn, 0 where none is. The search begins at the number of commits that the seat has seen, since
// as many ids at least are drawn.
fn last_drawn(grip: &mut Grip<'_>) -> u32
    ensures reached { Reached grip.old.layout 0 result grip.old.seat.me.0 grip.new.seat.me.0 }
    ensures last { result ≤ grip.old.layout.transactions }
    ensures same { IsSame grip.old grip.new }
{
    let from = first_drawn(grip);
    let span = double(grip, from);
    halve(grip, span)
}

// As many as the seat has seen committed, where that id is found drawn; else 0.
fn first_drawn(grip: &mut Grip<'_>) -> u32
    ensures reached { Reached grip.old.layout 0 result grip.old.seat.me.0 grip.new.seat.me.0 }
    ensures last { result ≤ grip.old.layout.transactions }
    ensures same { IsSame grip.old grip.new }
{
    let seen = grip.seen().0;
    if seen == 0 {
        return 0;
    }
    if is_drawn(grip, Tid(seen)) {
        return seen;
    }
    0
}

// Looks at ids at distances 1, 2, 4 and so on, each from the last one that is drawn, up to one that is not or past the last.
fn double(grip: &mut Grip<'_>, from: u32) -> Span
    requires from { from ≤ grip.old.layout.transactions }
    ensures reached { Reached grip.old.layout from result.low grip.old.seat.me.0 grip.new.seat.me.0 }
    ensures low { result.low < result.high }
    ensures high { result.high ≤ grip.old.layout.transactions + 1 }
    ensures same { IsSame grip.old grip.new }
{
    let last = grip.layout.transactions;
    let mut low = from;
    let mut step = 1u32;
    'steps: while step <= last - low {
        let t = low + step;
        if !is_drawn(grip, Tid(t)) {
            return Span { low, high: t };
        }
        low = t;
        step = step.saturating_mul(2);
    }
    Span {
        low,
        high: last + 1,
    }
}

// Looks half way between an id that is drawn and one that is not.
fn halve(grip: &mut Grip<'_>, span: Span) -> u32
    requires low { span.low < span.high }
    requires high { span.high ≤ grip.old.layout.transactions + 1 }
    ensures reached { Reached grip.old.layout span.low result grip.old.seat.me.0 grip.new.seat.me.0 }
    ensures last { result ≤ grip.old.layout.transactions }
    ensures same { IsSame grip.old grip.new }
{
    let mut low = span.low;
    let mut high = span.high;
    'halves: while low + 1 < high {
        let middle = low + (high - low) / 2;
        if is_drawn(grip, Tid(middle)) {
            low = middle;
        } else {
            high = middle;
        }
    }
    low
}

// Whether an id is drawn.
fn is_drawn(grip: &mut Grip<'_>, t: Tid) -> bool
    requires tid { HasTid grip.old.layout t.0 }
    ensures looked { LookedAt grip.old.layout t.0 grip.old.seat.me.0 result grip.new.seat.me.0 }
    ensures same { IsSame grip.old grip.new }
{
    match grip.load_tid(t) {
        TidWord::Empty => false,
        _ => true,
    }
}
