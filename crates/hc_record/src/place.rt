// An integer of a record, read where it is.
ghost use Rattle.std.specs.Prelude.{◌≡◌, ◌++◌, ◌<◌, ◌≤◌, ◌^◌, List, ℕ, Some, length, slice_get, MatchOption};
ghost use Rattle.hc_value.specs.declared.value.Value.{Value as Column};
ghost use Rattle.hc_value.specs.Values.{IsValue, AreValues};
ghost use Rattle.hc_record.specs.Record.{encoding, types_of, bodies_of, type_of, body_of};
ghost use Rattle.hc_record.specs.Places.{number_of, integer_at, HaveTypes};

use crate::serial::{body_len, integer};
use crate::varint::{split_varint, varint_len};

/// The integer at a place, counted from 0, of the list whose record these bytes are; `None` where another value or none
/// is there. Nothing is copied and no other value is tested, so of bytes that are no record it may answer anything.
pub fn integer_at(bytes: &[u8], place: usize) -> Option<i64>
    ensures { (values : List Column) → AreValues values → length (encoding values) < 2 ^ 32 → bytes.now ≡ encoding values → result ≡ integer_at values place }
{
    let (types, bodies) = split_record(bytes)?;
    let (serial, body) = skip(types, bodies, place)?;
    integer_in(serial, body)
}

// The types and the bodies of a record.
fn split_record(bytes: &[u8]) -> Option<(&[u8], &[u8])>
    ensures { (values : List Column) → length (encoding values) < 2 ^ 32 → bytes.now ≡ encoding values
        → MatchOption result ⊥ (λ found. (found.0.now ≡ types_of values) × (found.1.now ≡ bodies_of values)) }
{
    let (header, rest) = split_varint(bytes)?;
    let size = header.saturating_sub(varint_len(header));
    if size > rest.len() as u64 {
        return None;
    }
    Some(rest.split_at(size as usize))
}

// The type of the value at a place, and the bodies from its own on.
fn skip<'a>(types: &[u8], bodies: &'a [u8], place: usize) -> Option<(u64, &'a [u8])>
    ensures { (values : List Column) → HaveTypes values → types.now ≡ types_of values → bodies.now ≡ bodies_of values
        → MatchOption result (length values ≤ place) (λ found. (v : Column) × (rest : List ℕ) × (slice_get values place ≡ Some v) × (found.0 ≡ type_of v) × (found.1.now ≡ body_of v ++ rest)) }
{
    let (serial, after) = split_varint(types)?;
    if place == 0 {
        return Some((serial, bodies));
    }
    let len = body_len(serial);
    if len > bodies.len() as u64 {
        return None;
    }
    let (_, rest) = bodies.split_at(len as usize);
    skip(after, rest, place - 1)
}

// The integer of this type whose body the bytes begin with.
fn integer_in(serial: u64, bytes: &[u8]) -> Option<i64>
    ensures { (v : Column) (rest : List ℕ) → IsValue v → serial ≡ type_of v → bytes.now ≡ body_of v ++ rest → result ≡ number_of (Some v) }
{
    if serial == 8 {
        return Some(0);
    }
    if serial == 9 {
        return Some(1);
    }
    if serial == 0 || serial > 6 {
        return None;
    }
    let len = body_len(serial) as usize;
    if len > bytes.len() {
        return None;
    }
    Some(integer(&bytes[..len]))
}
