// Logic of three values. `None` is unknown.
ghost use Rattle.std.specs.Prelude.{◌≡◌};
ghost use Rattle.hc_expr.specs.Logic.{truth_of, value_of_truth, negation, conjunction, disjunction, negated_if};

use hc_value::Value;

/// A value as a condition.
pub fn truth(v: &Value) -> Option<bool>
    ensures { result ≡ truth_of v.now }
{
    match v {
        Value::Int(n) => Some(*n != 0),
        _ => None,
    }
}

/// A truth as a value.
pub fn value_of_truth(truth: Option<bool>) -> Value
    ensures { result ≡ value_of_truth truth }
{
    match truth {
        None => Value::Null,
        Some(true) => Value::Int(1),
        Some(false) => Value::Int(0),
    }
}

pub fn negation(truth: Option<bool>) -> Option<bool>
    ensures { result ≡ negation truth }
{
    match truth {
        None => None,
        Some(known) => Some(!known),
    }
}

/// The truth, turned round where the flag says so.
pub fn negated_if(not: bool, truth: Option<bool>) -> Option<bool>
    ensures { result ≡ negated_if not truth }
{
    if not { negation(truth) } else { truth }
}

pub fn conjunction(a: Option<bool>, b: Option<bool>) -> Option<bool>
    ensures { result ≡ conjunction a b }
{
    match (a, b) {
        (Some(false), _) | (_, Some(false)) => Some(false),
        (Some(true), Some(true)) => Some(true),
        _ => None,
    }
}

pub fn disjunction(a: Option<bool>, b: Option<bool>) -> Option<bool>
    ensures { result ≡ disjunction a b }
{
    match (a, b) {
        (Some(true), _) | (_, Some(true)) => Some(true),
        (Some(false), Some(false)) => Some(false),
        _ => None,
    }
}
