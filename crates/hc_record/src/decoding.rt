ghost use Rattle.std.specs.Prelude.{◌≡◌, ◌+◌, ◌-◌, ◌<◌, ◌≤◌, ◌^◌, List, length, IfOk, Ok};
ghost use Rattle.hc_value.specs.declared.value.Value.{Value as Column};
ghost use Rattle.hc_value.specs.Values.{AreValues};
ghost use Rattle.hc_record.specs.Record.{encoding};
ghost use Rattle.hc_record.specs.Reading.{Gives, values_of_types, columns_at, record_at, reading};

use crate::encoding::header_len;
use crate::reader::{number_at, test_types, type_at, value_at};
use crate::varint::varint_len;
use crate::{RecordFault, RecordKind};
use hc_value::Value;
use sqlite_items::Items;
use std::alloc::Global;

/// The list of values whose record the bytes are.
pub fn decode(alloc: Global, bytes: &[u8]) -> Result<Items<Value>, RecordFault>
    requires { length bytes.now < 2 ^ 32 }
    // What is read is written so.
    ensures found { IfOk result (λ values. AreValues values × (bytes.now ≡ encoding values)) }
    // What is written so is read, unless memory runs out.
    ensures only { (values : List Column) → AreValues values → bytes.now ≡ encoding values
        → Gives (λ found. found) result (Ok values) }
    // Which fault it is.
    ensures exact { Gives (λ found. found) result (reading bytes.now) }
{
    all(alloc, bytes)
}

// The values of a record that is all of the bytes.
#[tactic(auto, unfolding(crate::specs::Reading::reading))]
fn all(alloc: Global, bytes: &[u8]) -> Result<Items<Value>, RecordFault>
    requires { length bytes.now < 2 ^ 32 }
    ensures { Gives (λ found. found) result (reading bytes.now) }
{
    let (values, rest) = record_at(alloc, bytes)?;
    if !rest.is_empty() {
        return Err(RecordFault::Bad {
            at: (bytes.len() - rest.len()) as u32,
            kind: RecordKind::Tail,
        });
    }
    Ok(values)
}

// A record at the front of the bytes, and what follows it.
#[tactic(auto, unfolding(crate::specs::Reading::record_at))]
fn record_at(alloc: Global, bytes: &[u8]) -> Result<(Items<Value>, &[u8]), RecordFault>
    requires { length bytes.now < 2 ^ 32 }
    ensures read { Gives (λ found. (found.0, found.1.now)) result (record_at bytes.now) }
    ensures no_longer { IfOk result (λ found. length found.1.now ≤ length bytes.now) }
{
    let end = bytes.len() as u32;
    let (header, rest) = number_at(bytes, end)?;
    let size = header.saturating_sub(varint_len(header));
    if header_len(size) != header {
        return Err(RecordFault::Bad {
            at: 0,
            kind: RecordKind::Spelling,
        });
    }
    columns_at(alloc, size, rest, end)
}

// The values after a header's length, with so many bytes of types.
#[tactic(auto, unfolding(crate::specs::Reading::columns_at))]
fn columns_at(
    alloc: Global,
    size: u64,
    bytes: &[u8],
    end: u32,
) -> Result<(Items<Value>, &[u8]), RecordFault>
    requires { length bytes.now ≤ end }
    ensures read { Gives (λ found. (found.0, found.1.now)) result (columns_at end size bytes.now) }
    ensures no_longer { IfOk result (λ found. length found.1.now ≤ length bytes.now) }
{
    if (bytes.len() as u64) < size {
        test_types(bytes, end)?;
        return Err(RecordFault::Bad {
            at: end,
            kind: RecordKind::Short,
        });
    }
    let (types, bodies) = bytes.split_at(size as usize);
    values_at(alloc, types, bodies, end)
}

// The values of these types, which go up to the bodies. The header is tested to its end before a body is
// found to be at fault, and each byte is read once.
fn values_at<'a>(
    alloc: Global,
    types: &[u8],
    bodies: &'a [u8],
    end: u32,
) -> Result<(Items<Value>, &'a [u8]), RecordFault>
    requires { length types.now + length bodies.now ≤ end }
    ensures read { Gives (λ found. (found.0, found.1.now)) result
        (values_of_types (end - length bodies.now) end types.now bodies.now) }
    ensures no_longer { IfOk result (λ found. length found.1.now ≤ length bodies.now) }
{
    let stop = end - bodies.len() as u32;
    let mut values = Items::new(alloc);
    let mut types = types;
    let mut bodies = bodies;
    while !types.is_empty() {
        let place = stop - types.len() as u32;
        let (serial, after) = type_at(types, stop)?;
        types = after;
        match value_at(alloc, serial, place, bodies, end) {
            Ok((value, rest)) => {
                values.push(value)?;
                bodies = rest;
            }
            Err(fault) => {
                test_types(types, stop)?;
                return Err(fault);
            }
        }
    }
    Ok((values, bodies))
}
