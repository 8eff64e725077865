// Values, names and numbers as literals, appended to what is there.
ghost use Rattle.std.specs.Prelude.{◌≡◌, ◌<◌, ◌++◌, OnOk};
ghost use Rattle.std.specs.Str.{IsUtf8};
ghost use Rattle.std.specs.List.{AllByRecursion};
ghost use Rattle.hc_text.specs.Bytes.{AreBytes};
ghost use Rattle.hc_transcript.specs.Literals.{text_literal, blob_literal, value_text, values_text, IsPrintable};

use hc_text::byte_digits;
use hc_value::laws::a_value_is_one;
use hc_value::{NoMemory, Str, Value};
use itoa::{Buffer, Integer};

/// Values with bars between them.
pub fn print_values(out: &mut Vec<u8>, values: &[Value]) -> Result<(), NoMemory>
    ensures text { OnOk result (out.new.items ≡ out.old.items ++ values_text values.now) }
    ensures printable { OnOk result (AllByRecursion IsPrintable values.now) }
{
    let Some((first, others)) = values.split_first() else {
        return Ok(());
    };
    print_value(out, first)?;
    for value in others {
        out.push(b'|')?;
        print_value(out, value)?;
    }
    Ok(())
}

fn print_value(out: &mut Vec<u8>, value: &Value) -> Result<(), NoMemory>
    ensures text { OnOk result (out.new.items ≡ out.old.items ++ value_text value.now) }
    ensures printable { OnOk result (IsPrintable value.now) }
{
    a_value_is_one(value);
    match value {
        Value::Null => out.extend_from_slice(b"NULL"),
        Value::Int(n) => print_number(out, *n),
        Value::Text(text) => print_text(out, text),
        Value::Blob(blob) => print_blob(out, blob.as_slice()),
    }
}

/// A text, or a name, as a text literal.
pub fn print_text(out: &mut Vec<u8>, text: &Str) -> Result<(), NoMemory>
    ensures text { OnOk result (out.new.items ≡ out.old.items ++ text_literal text.now) }
    ensures utf8 { OnOk result (IsUtf8 text.now) }
{
    out.push(b'\'')?;
    for b in text.as_str().as_bytes() {
        if *b == b'\'' {
            out.push(*b)?;
        }
        out.push(*b)?;
    }
    out.push(b'\'')?;
    Ok(())
}

/// Bytes as a blob literal.
pub fn print_blob(out: &mut Vec<u8>, bytes: &[u8]) -> Result<(), NoMemory>
    ensures text { OnOk result (out.new.items ≡ out.old.items ++ blob_literal bytes.now) }
    ensures bytes { OnOk result (AreBytes bytes.now) }
{
    out.extend_from_slice(b"X'")?;
    for b in bytes {
        let [high, low] = byte_digits(*b);
        out.push(high)?;
        out.push(low)?;
    }
    out.push(b'\'')?;
    Ok(())
}

/// A number in decimal digits.
pub fn print_number<N: Integer>(out: &mut Vec<u8>, n: N) -> Result<(), NoMemory>
    ensures { OnOk result (out.new.items ≡ out.old.items ++ N.text n) }
{
    let mut buffer = Buffer::new();
    out.extend_from_slice(buffer.format(n).as_bytes())
}
