// How long a key is, without its bytes.
ghost use Rattle.std.specs.Prelude.{◌≡◌, ℕ, ◌+◌, ◌-◌, ◌^◌, ◌==◌, length, min, count_by};
ghost use Rattle.hc_key.specs.Keys.{ended, value_bytes, key_bytes};

use hc_value::Value;

/// How many bytes the key of these values has, in whatever tree. Nothing is written. A number of 64 bits holds the
/// length of whatever a machine can hold; where it would not, the answer is the greatest one.
pub fn key_len(values: &[Value]) -> u64
    ensures { (tree : ℕ) → result ≡ min (length (key_bytes tree values.now)) (2 ^ 64 - 1) }
{
    let mut len: u64 = 4;
    for v in values {
        len = len.saturating_add(value_len(v));
    }
    len
}

// How many bytes a value has.
#[tactic(auto, unfolding(crate::specs::Keys::value_bytes))]
fn value_len(v: &Value) -> u64
    ensures { result ≡ min (length (value_bytes v.now)) (2 ^ 64 - 1) }
{
    match v {
        Value::Null => 1,
        Value::Int(_) => 9,
        Value::Text(text) => ended_len(text.as_bytes()),
        Value::Blob(blob) => ended_len(blob.as_slice()),
    }
}

// How many bytes a text or a blob has with its class, its escaped zeros and its end.
fn ended_len(bytes: &[u8]) -> u64
    ensures { result ≡ min (1 + length (ended bytes.now)) (2 ^ 64 - 1) }
{
    (bytes.len() as u64)
        .saturating_add(count_zeros(bytes) as u64)
        .saturating_add(3)
}

// How many bytes are zeros.
fn count_zeros(bytes: &[u8]) -> usize
    ensures { result ≡ count_by (λ byte. byte == 0) bytes.now }
{
    bytes.iter().filter(|byte| **byte == 0).count()
}
