ghost use Rattle.std.specs.Prelude.{◌≡◌};
ghost use Rattle.hc_value.specs.Order.{class_of, rank_of, value_order};

use crate::{Class, Value, class};
use std::cmp::Ordering;

/// The order of two values: `NULL`, integers by number, texts by bytes, blobs by bytes. A proper prefix
/// comes first.
pub fn cmp(a: &Value, b: &Value) -> Ordering
    ensures { result ≡ value_order a.now b.now }
{
    match (a, b) {
        (Value::Int(m), Value::Int(n)) => m.cmp(n),
        (Value::Text(s), Value::Text(t)) => s.as_bytes().cmp(t.as_bytes()),
        (Value::Blob(s), Value::Blob(t)) => s.as_slice().cmp(t.as_slice()),
        _ => rank(class(a)).cmp(&rank(class(b))),
    }
}

// The place of a class among the classes.
fn rank(class: Class) -> u8
    ensures { result ≡ rank_of class }
{
    match class {
        Class::Null => 0,
        Class::Int => 1,
        Class::Text => 2,
        Class::Blob => 3,
    }
}
