// Comparisons of two values, and what is built of them. `None` is unknown.
ghost use Rattle.std.specs.Prelude.{◌≡◌};
ghost use Rattle.std.specs.Ordering.{is_eq};
ghost use Rattle.hc_value.specs.Order.{value_order};
ghost use Rattle.hc_expr.specs.Values.{order_of, are_equal, is_between};

use crate::logic::conjunction;
use hc_value::{Value, cmp};
use std::cmp::Ordering;

/// The order of two values; `None` where one is NULL.
pub fn order(v: &Value, w: &Value) -> Option<Ordering>
    ensures { result ≡ order_of v.now w.now }
{
    match (v, w) {
        (Value::Null, _) | (_, Value::Null) => None,
        _ => Some(cmp(v, w)),
    }
}

pub fn are_equal(v: &Value, w: &Value) -> Option<bool>
    ensures { result ≡ are_equal v.now w.now }
{
    match order(v, w) {
        Some(order) => Some(order.is_eq()),
        None => None,
    }
}

/// Whether the value is at least the lower and at most the upper one.
pub fn is_between(v: &Value, low: &Value, high: &Value) -> Option<bool>
    ensures { result ≡ is_between v.now low.now high.now }
{
    let from = match order(v, low) {
        Some(order) => Some(order.is_ge()),
        None => None,
    };
    let to = match order(v, high) {
        Some(order) => Some(order.is_le()),
        None => None,
    };
    conjunction(from, to)
}
