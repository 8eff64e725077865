// Which conjuncts pin a column: those that say what it equals, by columns of tables before.
ghost use Rattle.std.specs.Prelude.{◌≡◌, ◌<◌, ◌^◌, ℕ, length, map};
ghost use Rattle.hc_schema.specs.Paths.{facts, all_before, includes, side, pins, first_pin};

use hc_ast::{BinaryOp, Bound};

/// The place of the first conjunct that pins the column at a place of the row.
pub fn first_pin(conjuncts: &[Bound], offset: u64, place: u64) -> Option<u32>
    requires { length conjuncts.now < 2 ^ 32 }
    ensures { result ≡ first_pin offset place conjuncts.now }
{
    let mut left = conjuncts;
    let mut n: u32 = 0;
    while let Some((conjunct, rest)) = left.split_first() {
        if pins(conjunct, offset, place) {
            return Some(n);
        }
        left = rest;
        n += 1;
    }
    None
}

#[tactic(auto, using(crate::proofs::Counting::includes_either))]
fn pins(conjunct: &Bound, offset: u64, place: u64) -> bool
    ensures { result ≡ pins offset place conjunct.now }
{
    let Bound::Binary {
        op: BinaryOp::Eq,
        left,
        right,
    } = conjunct
    else {
        return false;
    };
    is_side(left.get(), right.get(), offset, place)
        || is_side(right.get(), left.get(), offset, place)
}

// Whether one side of an `=` is the column at a place, and the other side is known before.
fn is_side(column: &Bound, other: &Bound, offset: u64, place: u64) -> bool
    ensures { result ≡ includes place (side (facts offset column.now) (facts offset other.now)) }
{
    match column_of(column) {
        Some(at) => u64::from(at) == place && is_before(other, offset),
        None => false,
    }
}

// The place of the column that an expression is, if it is one and no more.
fn column_of(e: &Bound) -> Option<u32>
    ensures { (offset : ℕ) → result ≡ (facts offset e.now).column }
{
    match e {
        Bound::Column(place) => Some(*place),
        _ => None,
    }
}

#[cycle(before)]
fn is_before(e: &Bound, offset: u64) -> bool
    ensures { result ≡ (facts offset e.now).before }
{
    match e {
        Bound::Value(_) => true,
        Bound::Column(place) => u64::from(*place) < offset,
        Bound::Not(of) | Bound::Minus(of) | Bound::Plus(of) | Bound::Length(of) | Bound::Abs(of) =>
            { is_before(of.get(), offset) }
        Bound::Binary { left, right, .. } => {
            is_before(left.get(), offset) && is_before(right.get(), offset)
        }
        Bound::Like { left, pattern, .. } => {
            is_before(left.get(), offset) && is_before(pattern.get(), offset)
        }
        Bound::OneOf { left, list, .. } => {
            is_before(left.get(), offset) && are_before(list.as_slice(), offset)
        }
        Bound::Between {
            left,
            low,
            high,
            ..
        } => {
            is_before(left.get(), offset)
                && is_before(low.get(), offset)
                && is_before(high.get(), offset)
        }
        Bound::Coalesce(list) => are_before(list.as_slice(), offset),
    }
}

#[cycle(before)]
fn are_before(list: &[Bound], offset: u64) -> bool
    ensures { result ≡ all_before (map (facts offset) list.now) }
{
    for e in list {
        if !is_before(e, offset) {
            return false;
        }
    }
    true
}
