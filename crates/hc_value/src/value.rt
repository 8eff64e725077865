ghost use Rattle.std.specs.Prelude.{◌≡◌, IfOk};
ghost use Rattle.hc_value.specs.Order.{class_of};

use crate::{Blob, Class, NoMemory, Str};
use std::alloc::Global;

/// A value of SQL.
#[derive(Debug, PartialEq, Eq, Drop)]
pub enum Value {
    /// The absent value `NULL`.
    Null,
    /// An `INTEGER`: 64 bits, signed.
    Int(i64),
    /// A `TEXT`, which is UTF-8.
    Text(Str),
    /// A `BLOB`, with any bytes.
    Blob(Blob),
}

/// The class of a value.
pub fn class(v: &Value) -> Class
    ensures { result ≡ class_of v.now }
{
    match v {
        Value::Null => Class::Null,
        Value::Int(_) => Class::Int,
        Value::Text(_) => Class::Text,
        Value::Blob(_) => Class::Blob,
    }
}

/// A value of its own that equals `v`.
pub fn copy(alloc: Global, v: &Value) -> Result<Value, NoMemory>
    ensures { IfOk result (λ copied. copied ≡ v.now) }
{
    match v {
        Value::Null => Ok(Value::Null),
        Value::Int(n) => Ok(Value::Int(*n)),
        Value::Text(text) => Ok(Value::Text(Str::from_text(alloc, text.as_str())?)),
        Value::Blob(blob) => Ok(Value::Blob(Blob::from_slice(alloc, blob.as_slice())?)),
    }
}
