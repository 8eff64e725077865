// Arithmetic on integers of 64 bits: the exact result, or `None` where it does not fit. What is no number counts as NULL.
ghost use Rattle.std.specs.Prelude.{◌≡◌};
ghost use Rattle.std.specs.Option.{option_map};
ghost use Rattle.hc_value.specs.declared.value.Value.TheVariants.{Int};
ghost use Rattle.hc_expr.specs.Arithmetic.{sum, difference, product, quotient, remainder, negative, magnitude, whole};

use hc_value::Value;

pub fn sum(v: &Value, w: &Value) -> Option<Value>
    ensures { result ≡ sum v.now w.now }
{
    match (v, w) {
        (Value::Int(m), Value::Int(n)) => integer(m.checked_add(*n)),
        _ => Some(Value::Null),
    }
}

pub fn difference(v: &Value, w: &Value) -> Option<Value>
    ensures { result ≡ difference v.now w.now }
{
    match (v, w) {
        (Value::Int(m), Value::Int(n)) => integer(m.checked_sub(*n)),
        _ => Some(Value::Null),
    }
}

pub fn product(v: &Value, w: &Value) -> Option<Value>
    ensures { result ≡ product v.now w.now }
{
    match (v, w) {
        (Value::Int(m), Value::Int(n)) => integer(m.checked_mul(*n)),
        _ => Some(Value::Null),
    }
}

/// Rounded toward zero; by 0 it is NULL.
pub fn quotient(v: &Value, w: &Value) -> Option<Value>
    ensures { result ≡ quotient v.now w.now }
{
    match (v, w) {
        (Value::Int(_), Value::Int(0)) => Some(Value::Null),
        (Value::Int(m), Value::Int(n)) => integer(m.checked_div(*n)),
        _ => Some(Value::Null),
    }
}

/// With the sign of the dividend; by 0 it is NULL.
pub fn remainder(v: &Value, w: &Value) -> Option<Value>
    ensures { result ≡ remainder v.now w.now }
{
    match (v, w) {
        (Value::Int(_), Value::Int(0)) => Some(Value::Null),
        // Every remainder by -1 is 0; the division would overflow at the least integer.
        (Value::Int(_), Value::Int(-1)) => Some(Value::Int(0)),
        (Value::Int(m), Value::Int(n)) => integer(m.checked_rem(*n)),
        _ => Some(Value::Null),
    }
}

pub fn negative(v: &Value) -> Option<Value>
    ensures { result ≡ negative v.now }
{
    match v {
        Value::Int(n) => integer(n.checked_neg()),
        _ => Some(Value::Null),
    }
}

pub fn magnitude(v: &Value) -> Option<Value>
    ensures { result ≡ magnitude v.now }
{
    match v {
        Value::Int(n) => integer(n.checked_abs()),
        _ => Some(Value::Null),
    }
}

/// The number itself.
pub fn whole(v: &Value) -> Option<Value>
    ensures { result ≡ whole v.now }
{
    match v {
        Value::Int(n) => Some(Value::Int(*n)),
        _ => Some(Value::Null),
    }
}

fn integer(found: Option<i64>) -> Option<Value>
    ensures { result ≡ option_map Int found }
{
    match found {
        Some(n) => Some(Value::Int(n)),
        None => None,
    }
}
