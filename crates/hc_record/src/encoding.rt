ghost use Rattle.std.specs.Prelude.{◌≡◌, ◌+◌, ◌<◌, ◌^◌, ◌++◌, length, IfOk, OnOk};
ghost use Rattle.hc_value.specs.Values.{AreValues};
ghost use Rattle.hc_record.specs.Record.{encoding, types_of, bodies_of, header_len};

use crate::serial::{push_body, serial_type};
use crate::varint::{push_varint, varint_len};
use hc_text::Bytes;
use hc_value::{NoMemory, Value};
use std::alloc::Global;

/// The record of these values.
pub fn encode(alloc: Global, values: &[Value]) -> Result<Bytes, NoMemory>
    requires { length (encoding values.now) < 2 ^ 32 }
    ensures record { IfOk result (λ bytes. bytes ≡ encoding values.now) }
    // What the values are, for `decode`.
    ensures values { AreValues values.now }
{
    let mut out = Vec::new(alloc);
    push_varint(&mut out, header_len(types_len(values)))?;
    push_types(&mut out, values)?;
    push_bodies(&mut out, values)?;
    Ok(Bytes::from_vec(out))
}

fn push_types(out: &mut Vec<u8>, values: &[Value]) -> Result<(), NoMemory>
    requires { length (encoding values.now) < 2 ^ 32 }
    ensures { OnOk result (out.new.items ≡ out.old.items ++ types_of values.now) }
{
    for v in values {
        push_varint(out, serial_type(v))?;
    }
    Ok(())
}

fn push_bodies(out: &mut Vec<u8>, values: &[Value]) -> Result<(), NoMemory>
    ensures { OnOk result (out.new.items ≡ out.old.items ++ bodies_of values.now) }
{
    for v in values {
        push_body(out, v)?;
    }
    Ok(())
}

// How many bytes the types take.
fn types_len(values: &[Value]) -> u64
    requires { length (encoding values.now) < 2 ^ 32 }
    ensures len { result ≡ length (types_of values.now) }
    ensures values { AreValues values.now }
{
    let mut len = 0;
    for v in values {
        len += varint_len(serial_type(v));
    }
    len
}

/// The length of a header with so many bytes of types.
#[tactic(auto, unfolding(crate::specs::Record::header_len, crate::specs::Varint::varint_len))]
pub fn header_len(types: u64) -> u64
    requires { types + 9 < 2 ^ 64 }
    ensures { result ≡ header_len types }
{
    types + varint_len(types + varint_len(types))
}
