// The words of canonical text, each written after a space.
ghost use Rattle.std.specs.Prelude.{◌≡◌, ◌∷◌, [], ◌++◌, ◌<◌, OnOk, string_bytes, encode_utf8_all};
ghost use Rattle.hc_text.specs.Digits.{byte_digits};
ghost use Rattle.hc_text.specs.Quotes.{doubled, quoted};
ghost use Rattle.hc_ast.specs.Words.{spaced, name_word, blob_word, integer_words, value_words};

use crate::NoMemory;
use hc_text::hex_digit;
use hc_value::{Blob, Str, Value};
use itoa::Buffer;

pub fn push_word(out: &mut String, word: &str) -> Result<(), NoMemory>
    ensures { OnOk result (string_bytes out.new ≡ string_bytes out.old ++ spaced (word.now ∷ [])) }
{
    out.push(' ')?;
    out.push_str(word)
}

pub fn push_name(out: &mut String, name: &Str) -> Result<(), NoMemory>
    ensures { OnOk result (string_bytes out.new ≡ string_bytes out.old ++ spaced (name_word name.now ∷ [])) }
{
    out.push(' ')?;
    push_quoted(out, '"', name.as_str())
}

pub fn push_value(out: &mut String, value: &Value) -> Result<(), NoMemory>
    ensures { OnOk result (string_bytes out.new ≡ string_bytes out.old ++ spaced (value_words value.now)) }
{
    match value {
        Value::Null => push_word(out, "NULL"),
        Value::Int(n) => push_integer(out, *n),
        Value::Text(text) => push_text(out, text),
        Value::Blob(blob) => push_blob(out, blob),
    }
}

pub fn push_integer(out: &mut String, n: i64) -> Result<(), NoMemory>
    ensures { OnOk result (string_bytes out.new ≡ string_bytes out.old ++ spaced (integer_words n)) }
{
    if n < 0 {
        push_word(out, "-")?;
    }
    let mut buffer = Buffer::new();
    push_word(out, buffer.format(n.unsigned_abs()))
}

fn push_text(out: &mut String, text: &Str) -> Result<(), NoMemory>
    ensures { OnOk result (string_bytes out.new ≡ string_bytes out.old ++ spaced (quoted 39 text.now ∷ [])) }
{
    out.push(' ')?;
    push_quoted(out, '\'', text.as_str())
}

// A text within quotes.
fn push_quoted(out: &mut String, quote: char, text: &str) -> Result<(), NoMemory>
    requires { quote < 128 }
    ensures { OnOk result (string_bytes out.new ≡ string_bytes out.old ++ quoted quote text.now) }
{
    push_ascii(out, quote)?;
    push_inner(out, quote, text)?;
    push_ascii(out, quote)
}

fn push_ascii(out: &mut String, c: char) -> Result<(), NoMemory>
    requires { c < 128 }
    ensures { OnOk result (string_bytes out.new ≡ string_bytes out.old ++ c ∷ []) }
{
    out.push(c)
}

// The characters within quotes.
fn push_inner(out: &mut String, quote: char, text: &str) -> Result<(), NoMemory>
    requires { quote < 128 }
    ensures { OnOk result (string_bytes out.new ≡ string_bytes out.old ++ doubled quote text.now) }
{
    for c in text.chars() {
        push_doubled(out, quote, c)?;
    }
    Ok(())
}

fn push_doubled(out: &mut String, quote: char, c: char) -> Result<(), NoMemory>
    ensures { OnOk result (string_bytes out.new
        ≡ string_bytes out.old ++ encode_utf8_all (doubled quote (c ∷ []))) }
{
    if c == quote {
        out.push(c)?;
    }
    out.push(c)
}

#[tactic(auto, unfolding(crate::specs::Words::blob_word))]
fn push_blob(out: &mut String, blob: &Blob) -> Result<(), NoMemory>
    ensures { OnOk result (string_bytes out.new ≡ string_bytes out.old ++ spaced (blob_word blob.now ∷ [])) }
{
    out.push_str(" X'")?;
    for b in blob.as_slice() {
        push_byte(out, *b)?;
    }
    out.push('\'')
}

fn push_byte(out: &mut String, b: u8) -> Result<(), NoMemory>
    ensures { OnOk result (string_bytes out.new ≡ string_bytes out.old ++ byte_digits b) }
{
    out.push(char::from(hex_digit(b / 16)))?;
    out.push(char::from(hex_digit(b % 16)))
}
