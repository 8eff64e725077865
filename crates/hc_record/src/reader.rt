// The parts of a record, read from the front of the bytes. `end` is how many bytes there are in all, and a
// place is told by how many are left.
ghost use Rattle.std.specs.Prelude.{◌≡◌, ◌<◌, ◌≤◌, if◌then◌else◌, length, IfOk, Ok};
ghost use Rattle.std.specs.Str.{is_utf8};
ghost use Rattle.hc_record.specs.Record.{body_len};
ghost use Rattle.hc_record.specs.Reading.{Gives, Tests, fault, number_at, type_at, types_at, value_of, value_at};

use crate::serial::{body_len, int_type, integer};
use crate::varint::{split_varint, varint_len};
use crate::{RecordFault, RecordKind};
use hc_value::{Blob, Str, Value};
use std::alloc::Global;

fn bad(at: u32, kind: RecordKind) -> RecordFault
    ensures { result ≡ RecordFault.Bad at kind }
{
    RecordFault::Bad { at, kind }
}

/// A number in its shortest form, and what follows it, in bytes that go up to `stop`.
#[tactic(auto, unfolding(crate::specs::Reading::number_at))]
pub fn number_at(bytes: &[u8], stop: u32) -> Result<(u64, &[u8]), RecordFault>
    requires { length bytes.now ≤ stop }
    ensures read { Gives (λ found. (found.0, found.1.now)) result (number_at stop bytes.now) }
    ensures shorter { IfOk result (λ found. length found.1.now < length bytes.now) }
{
    let Some((n, rest)) = split_varint(bytes) else {
        return Err(bad(stop, RecordKind::Short));
    };
    if bytes.len() as u64 != varint_len(n) + rest.len() as u64 {
        return Err(bad(stop - bytes.len() as u32, RecordKind::Spelling));
    }
    Ok((n, rest))
}

/// A serial type and what follows it, in bytes that go up to `stop`.
#[tactic(auto, unfolding(crate::specs::Reading::type_at))]
pub fn type_at(bytes: &[u8], stop: u32) -> Result<(u64, &[u8]), RecordFault>
    requires { length bytes.now ≤ stop }
    ensures read { Gives (λ found. (found.0, found.1.now)) result (type_at stop bytes.now) }
    ensures shorter { IfOk result (λ found. length found.1.now < length bytes.now) }
{
    let (serial, rest) = number_at(bytes, stop)?;
    if serial == 7 || serial == 10 || serial == 11 {
        return Err(bad(stop - bytes.len() as u32, RecordKind::BadType));
    }
    Ok((serial, rest))
}

/// Whether each type up to `stop` can be read.
pub fn test_types(bytes: &[u8], stop: u32) -> Result<(), RecordFault>
    requires { length bytes.now ≤ stop }
    ensures { Tests result (types_at stop bytes.now) }
{
    let mut rest = bytes;
    while !rest.is_empty() {
        let (_, after) = type_at(rest, stop)?;
        rest = after;
    }
    Ok(())
}

/// A value of this type, which is at `type_place`, and what follows its body.
#[tactic(auto, unfolding(crate::specs::Reading::value_at))]
pub fn value_at(
    alloc: Global,
    serial: u64,
    type_place: u32,
    bytes: &[u8],
    end: u32,
) -> Result<(Value, &[u8]), RecordFault>
    requires { length bytes.now ≤ end }
    ensures read { Gives (λ found. (found.0, found.1.now)) result (value_at end (type_place, serial) bytes.now) }
    ensures no_longer { IfOk result (λ found. length found.1.now ≤ length bytes.now) }
{
    let len = body_len(serial);
    if (bytes.len() as u64) < len {
        return Err(bad(end, RecordKind::Short));
    }
    let (body, rest) = bytes.split_at(len as usize);
    let v = value_of(alloc, body, serial, type_place, end - bytes.len() as u32)?;
    Ok((v, rest))
}

// The value whose body these bytes are.
#[tactic(auto, unfolding(crate::specs::Reading::value_of, crate::specs::Record::body_len))]
fn value_of(
    alloc: Global,
    body: &[u8],
    serial: u64,
    type_place: u32,
    place: u32,
) -> Result<Value, RecordFault>
    requires { length body.now ≡ body_len serial }
    ensures { Gives (λ v. v) result (value_of type_place place serial body.now) }
{
    match serial {
        0 => Ok(Value::Null),
        1..=6 => {
            let n = integer(body);
            if int_type(n) != serial {
                return Err(bad(type_place, RecordKind::Spelling));
            }
            Ok(Value::Int(n))
        }
        7..=11 => Ok(Value::Int(if serial == 9 { 1 } else { 0 })),
        _ if serial % 2 == 0 => Ok(Value::Blob(Blob::from_slice(alloc, body)?)),
        _ => text_of(alloc, body, place),
    }
}

// A text, if the bytes are one.
fn text_of(alloc: Global, body: &[u8], place: u32) -> Result<Value, RecordFault>
    ensures { Gives (λ v. v) result (if is_utf8 body.now then Ok (Value.Text body.now) else fault place RecordKind.Utf8) }
{
    match str::from_utf8(body) {
        Ok(text) => Ok(Value::Text(Str::from_text(alloc, text)?)),
        Err(_) => Err(bad(place, RecordKind::Utf8)),
    }
}
