// The serial types of values and the bodies after them.
ghost use Rattle.std.specs.Prelude.{◌≡◌, ◌++◌, ◌+◌, ◌-◌, ◌≤◌, ◌<◌, ◌^◌, length, OnOk};
ghost use Rattle.hc_value.specs.Values.{IsValue};
ghost use Rattle.hc_record.specs.Record.{body_len, type_of_int, type_of, body_of};
ghost use Rattle.hc_record.specs.Reading.{integer_of, bits_above};

use hc_value::{NoMemory, Value};

/// How many bytes the body of a type has.
#[tactic(auto, unfolding(crate::specs::Record::body_len))]
pub fn body_len(serial: u64) -> u64
    ensures { result ≡ body_len serial }
{
    match serial {
        0..=4 => serial,
        5 => 6,
        6 => 8,
        7..=11 => 0,
        _ => (serial - 12) / 2,
    }
}

/// The type that an integer is written with.
#[tactic(auto, unfolding(crate::specs::Record::type_of_magnitude))]
pub fn int_type(n: i64) -> u64
    ensures { result ≡ type_of_int n }
{
    let steps = if n < 0 { (-1 - n) as u64 } else { n as u64 };
    if n == 0 || n == 1 {
        8 + steps
    } else if steps < 1 << 7 {
        1
    } else if steps < 1 << 15 {
        2
    } else if steps < 1 << 23 {
        3
    } else if steps < 1 << 31 {
        4
    } else if steps < 1 << 47 {
        5
    } else {
        6
    }
}

/// The type that a value is written with.
pub fn serial_type(v: &Value) -> u64
    requires { length (body_of v.now) < 2 ^ 32 }
    ensures serial { result ≡ type_of v.now }
    ensures value { IsValue v.now }
{
    match v {
        Value::Null => 0,
        Value::Int(n) => int_type(*n),
        Value::Text(text) => 13 + 2 * text.as_str().len() as u64,
        Value::Blob(blob) => 12 + 2 * blob.as_slice().len() as u64,
    }
}

/// Writes the body of a value after what is there.
pub fn push_body(out: &mut Vec<u8>, v: &Value) -> Result<(), NoMemory>
    ensures { OnOk result (out.new.items ≡ out.old.items ++ body_of v.now) }
{
    match v {
        Value::Null => Ok(()),
        Value::Int(n) => push_integer(out, *n),
        Value::Text(text) => out.extend_from_slice(text.as_bytes()),
        Value::Blob(blob) => out.extend_from_slice(blob.as_slice()),
    }
}

fn push_integer(out: &mut Vec<u8>, n: i64) -> Result<(), NoMemory>
    ensures { OnOk result (out.new.items ≡ out.old.items ++ body_of (Value.Int n)) }
{
    let len = body_len(int_type(n)) as usize;
    let bytes = n.to_be_bytes();
    out.extend_from_slice(&bytes[8 - len..])
}

/// The integer in two's complement, big-endian.
pub fn integer(bytes: &[u8]) -> i64
    requires { length bytes.now ≤ 8 }
    ensures { result ≡ integer_of bytes.now }
{
    let mut bits = bits_above(bytes);
    for byte in bytes {
        bits = bits * 256 + u64::from(*byte);
    }
    bits.cast_signed()
}

// The bits above the body, as its first one.
fn bits_above(bytes: &[u8]) -> u64
    requires { length bytes.now ≤ 8 }
    ensures bits { result ≡ bits_above bytes.now }
    ensures fits { result < 256 ^ (8 - length bytes.now) }
{
    match bytes {
        [first, ..] if *first >= 128 && bytes.len() < 8 => u64::MAX >> (8 * bytes.len()),
        _ => 0,
    }
}
