ghost use Rattle.std.specs.Prelude.{◌≡◌, ◌+◌, ◌-◌, ◌*◌, ◌<◌, ◌^◌, ◌↔◌, IsTrue, length, min};
ghost use Rattle.hc_record.specs.Varint.{varint_len};
ghost use Rattle.hc_record.specs.Record.{encoding, type_of, body_of};

use crate::serial::{body_len, int_type};
use crate::varint::varint_len;
use hc_value::Value;

/// What the length of a record stays below.
const LIMIT: u64 = 1 << 32;

/// Whether the record of these values is as short as `encode` wants it: below 2^32 bytes.
pub fn fits(values: &[Value]) -> bool
    ensures { IsTrue result ↔ (length (encoding values.now) < 2 ^ 32) }
{
    encoding_len(values) < LIMIT
}

/// How many bytes the record of these values has, also where it is longer than `encode` wants it. Nothing is written.
/// A number of 64 bits holds the length of whatever a machine can hold; where it would not, the answer is the greatest one.
pub fn encoding_len(values: &[Value]) -> u64
    ensures { result ≡ min (length (encoding values.now)) (2 ^ 64 - 1) }
{
    let mut types: u64 = 0;
    let mut bodies: u64 = 0;
    for v in values {
        types = types.saturating_add(type_len(v));
        bodies = bodies.saturating_add(value_len(v));
    }
    let header = types.saturating_add(varint_len(types.saturating_add(varint_len(types))));
    varint_len(header)
        .saturating_add(types)
        .saturating_add(bodies)
}

// How many bytes the type of a value has.
fn type_len(v: &Value) -> u64
    ensures { result ≡ varint_len (type_of v.now) }
{
    match v {
        Value::Null => varint_len(0),
        Value::Int(n) => varint_len(int_type(*n)),
        Value::Text(text) => content_len(13, text.as_bytes()),
        Value::Blob(blob) => content_len(12, blob.as_slice()),
    }
}

// How many bytes the type of a text or a blob has, where `first` is that of an empty one.
fn content_len(first: u64, bytes: &[u8]) -> u64
    ensures { result ≡ varint_len (first + 2 * length bytes.now) }
{
    varint_len((bytes.len() as u64).saturating_mul(2).saturating_add(first))
}

// How many bytes the body of a value has.
fn value_len(v: &Value) -> u64
    ensures { result ≡ length (body_of v.now) }
{
    match v {
        Value::Int(n) => body_len(int_type(*n)),
        Value::Text(text) => text.as_bytes().len() as u64,
        Value::Blob(blob) => blob.as_slice().len() as u64,
        Value::Null => 0,
    }
}
