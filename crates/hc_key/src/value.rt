// The bytes of a value in a key.
ghost use Rattle.std.specs.Prelude.{◌≡◌, [], ◌∷◌, ◌++◌, OnOk};
ghost use Rattle.std.specs.Int.{bytes_high_first};
ghost use Rattle.hc_value.specs.Values.{AreValues};
ghost use Rattle.hc_key.specs.Keys.{turned, escape, escaped, ended, value_bytes};

use hc_value::laws::a_value_is_one;
use hc_value::{NoMemory, Value};

/// Writes a value after what is there.
#[tactic(auto, unfolding(crate::specs::Keys::value_bytes))]
pub fn push_value(out: &mut Vec<u8>, v: &Value) -> Result<(), NoMemory>
    ensures { OnOk result (out.new.items ≡ out.old.items ++ value_bytes v.now) }
{
    match v {
        Value::Null => push_class(out, 1),
        Value::Int(n) => push_integer(out, *n),
        Value::Text(text) => push_ended(out, 3, text.as_bytes()),
        Value::Blob(blob) => push_ended(out, 4, blob.as_slice()),
    }
}

fn push_class(out: &mut Vec<u8>, class: u8) -> Result<(), NoMemory>
    ensures { OnOk result (out.new.items ≡ out.old.items ++ class ∷ []) }
{
    out.push(class)?;
    Ok(())
}

fn push_integer(out: &mut Vec<u8>, n: i64) -> Result<(), NoMemory>
    ensures { OnOk result (out.new.items ≡ out.old.items ++ 2 ∷ bytes_high_first 8 (turned n)) }
{
    out.push(2)?;
    out.extend_from_slice(&turned(n).to_be_bytes())
}

// The number counted from the least one: its sign bit turned.
fn turned(n: i64) -> u64
    ensures { result ≡ turned n }
{
    n.cast_unsigned() ^ (1 << 63)
}

// A class, and the bytes of a text or a blob up to their end.
fn push_ended(out: &mut Vec<u8>, class: u8, bytes: &[u8]) -> Result<(), NoMemory>
    ensures { OnOk result (out.new.items ≡ out.old.items ++ class ∷ ended bytes.now) }
{
    out.push(class)?;
    push_escaped(out, bytes)?;
    out.extend_from_slice(&[0, 0])
}

fn push_escaped(out: &mut Vec<u8>, bytes: &[u8]) -> Result<(), NoMemory>
    ensures { OnOk result (out.new.items ≡ out.old.items ++ escaped bytes.now) }
{
    for byte in bytes {
        push_byte(out, *byte)?;
    }
    Ok(())
}

fn push_byte(out: &mut Vec<u8>, byte: u8) -> Result<(), NoMemory>
    ensures { OnOk result (out.new.items ≡ out.old.items ++ escape byte) }
{
    if byte == 0 {
        return out.extend_from_slice(&[0, 0xff]);
    }
    out.push(byte)?;
    Ok(())
}

/// What the values of a list are, as contracts say it.
pub fn are_values(values: &[Value])
    ensures { AreValues values.now }
{
    for v in values {
        a_value_is_one(v);
    }
}
