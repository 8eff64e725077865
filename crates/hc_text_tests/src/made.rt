// Values as the tests of several crates make them.
use hc_value::{Blob, NoMemory, Str, Value};
use std::alloc::Global;

pub fn text(alloc: Global, text: &str) -> Result<Value, NoMemory> {
    Ok(Value::Text(Str::from_text(alloc, text)?))
}

pub fn blob(alloc: Global, bytes: &[u8]) -> Result<Value, NoMemory> {
    Ok(Value::Blob(Blob::from_slice(alloc, bytes)?))
}

/// Neighbours in the order of values, ascending: NULL, integers, texts and blobs, of these the prefixes of others first.
pub fn ladder(alloc: Global) -> Result<Vec<Value>, NoMemory> {
    let mut values = Vec::new(alloc);
    values.push(Value::Null)?;
    for n in [i64::MIN, -256, -1, 0, 1, 255, i64::MAX] {
        values.push(Value::Int(n))?;
    }
    for s in [
        "",
        "\0",
        "10",
        "9",
        "A",
        "a",
        "a\0",
        "a\0\0b",
        "aa",
        "ab",
        "b",
        "zz",
        "ä",
        "€",
        "\u{1d11e}",
    ] {
        values.push(text(alloc, s)?)?;
    }
    for bytes in [
        b"".as_slice(),
        b"\x00".as_slice(),
        b"\x00\x00".as_slice(),
        b"\x00\xff".as_slice(),
        b"\x7f".as_slice(),
        b"\x80".as_slice(),
        b"\xff".as_slice(),
    ] {
        values.push(blob(alloc, bytes)?)?;
    }
    Ok(values)
}
