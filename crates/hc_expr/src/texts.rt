// Operations on texts and blobs.
ghost use Rattle.std.specs.Prelude.{◌≡◌, ◌++◌, pos, IfOk, length};
ghost use Rattle.std.specs.Str.{chars};
ghost use Rattle.hc_value.specs.declared.value.Value.TheVariants.{Int};
ghost use Rattle.hc_expr.specs.Values.{extent, joined, likeness};

use crate::like::is_like;
use hc_value::{NoMemory, Str, Value};
use std::alloc::Global;

/// The characters of a text, the bytes of a blob; NULL of anything else.
pub fn extent(v: &Value) -> Option<Value>
    ensures { result ≡ extent v.now }
{
    match v {
        Value::Text(text) => Some(Value::Int(characters(text.as_str()))),
        Value::Blob(blob) => Some(Value::Int(blob.as_slice().len() as i64)),
        _ => Some(Value::Null),
    }
}

fn characters(text: &str) -> i64
    ensures { result ≡ pos (length (chars text.now)) }
{
    let count = text.chars().count();
    // It is at most the number of bytes, which fits.
    let fits = count <= text.len();
    prove!(fits);
    count as i64
}

/// Two texts as one; NULL where one is none.
pub fn joined(alloc: Global, v: &Value, w: &Value) -> Result<Value, NoMemory>
    ensures { IfOk result (λ made. made ≡ joined v.now w.now) }
{
    match (v, w) {
        (Value::Text(s), Value::Text(t)) => Ok(Value::Text(both(alloc, s.as_str(), t.as_str())?)),
        _ => Ok(Value::Null),
    }
}

fn both(alloc: Global, s: &str, t: &str) -> Result<Str, NoMemory>
    ensures { IfOk result (λ made. made ≡ s.now ++ t.now) }
{
    let mut text = String::with_capacity(alloc, s.len() + t.len())?;
    text.push_str(s)?;
    text.push_str(t)?;
    Ok(Str::from_string(text))
}

/// LIKE of two texts, the pattern second; unknown for anything else.
pub fn likeness(v: &Value, w: &Value) -> Option<bool>
    ensures { result ≡ likeness v.now w.now }
{
    match (v, w) {
        (Value::Text(text), Value::Text(pattern)) => Some(is_like(pattern.as_str(), text.as_str())),
        _ => None,
    }
}
