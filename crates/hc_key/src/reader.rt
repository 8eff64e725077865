// Values in a key. A place is how many bytes of the key come before.
ghost use Rattle.std.specs.Prelude.{◌≡◌, ◌+◌, ◌^◌, ◌<◌, ◌∷◌, ◌++◌, length, IfOk, IfErr};
ghost use Rattle.hc_value.specs.Values.{IsValue};
ghost use Rattle.hc_key.specs.Keys.{turned, value_bytes};
ghost use Rattle.hc_key.specs.Reading.{IsValuePart, IsPartFault};

use crate::KeyFault;
use crate::content::content;
use hc_text::Expected;
use hc_value::{Blob, Str, Value};
use std::alloc::Global;

/// A value after the first byte of it, which tells its class and is at the place; and what follows it.
pub fn value_after(
    alloc: Global,
    class: u8,
    rest: &[u8],
    place: u32,
) -> Result<(Value, &[u8]), KeyFault>
    requires fits { place + 1 + length rest.now < 2 ^ 32 }
    ensures found { IfOk result (λ found. IsValue found.0 × (class ∷ rest.now ≡ value_bytes found.0 ++ found.1.now)) }
    ensures fault { IfErr result (IsPartFault IsValuePart (class ∷ rest.now) place) }
{
    match class {
        1 => Ok((Value::Null, rest)),
        2 => integer_after(rest, place),
        3 => text_after(alloc, rest, place),
        4 => blob_after(alloc, rest, place),
        _ => Err(KeyFault::Bad { at: place }),
    }
}

// An integer after its class, which is at the place.
fn integer_after(rest: &[u8], place: u32) -> Result<(Value, &[u8]), KeyFault>
    requires fits { place + 1 + length rest.now < 2 ^ 32 }
    ensures found { IfOk result (λ found. IsValue found.0 × (2 ∷ rest.now ≡ value_bytes found.0 ++ found.1.now)) }
    ensures fault { IfErr result (IsPartFault IsValuePart (2 ∷ rest.now) place) }
{
    let Some((bytes, left)) = rest.split_first_chunk::<8>() else {
        return Err(KeyFault::Bad {
            at: place + 1 + rest.len() as u32,
        });
    };
    Ok((Value::Int(unturned(u64::from_be_bytes(*bytes))), left))
}

// The number whose sign bit was turned.
fn unturned(bits: u64) -> i64
    ensures { turned result ≡ bits }
{
    (bits ^ (1 << 63)).cast_signed()
}

// A text after its class, which is at the place.
fn text_after(alloc: Global, rest: &[u8], place: u32) -> Result<(Value, &[u8]), KeyFault>
    requires fits { place + 1 + length rest.now < 2 ^ 32 }
    ensures found { IfOk result (λ found. IsValue found.0 × (3 ∷ rest.now ≡ value_bytes found.0 ++ found.1.now)) }
    ensures fault { IfErr result (IsPartFault IsValuePart (3 ∷ rest.now) place) }
{
    let (bytes, left) = content(alloc, rest, Expected::Character, place + 1)?;
    // SAFETY: what `content` read is a text by its contract.
    let text = unsafe { String::from_utf8_unchecked(bytes) };
    Ok((Value::Text(Str::from_string(text)), left))
}

// A blob after its class, which is at the place.
fn blob_after(alloc: Global, rest: &[u8], place: u32) -> Result<(Value, &[u8]), KeyFault>
    requires fits { place + 1 + length rest.now < 2 ^ 32 }
    ensures found { IfOk result (λ found. IsValue found.0 × (4 ∷ rest.now ≡ value_bytes found.0 ++ found.1.now)) }
    ensures fault { IfErr result (IsPartFault IsValuePart (4 ∷ rest.now) place) }
{
    let (bytes, left) = content(alloc, rest, Expected::Any, place + 1)?;
    Ok((Value::Blob(Blob::from_vec(bytes)), left))
}
