// The fields of a refusal's line.
ghost use Rattle.std.specs.Prelude.{◌≡◌, [], ◌++◌, OnOk, codes};
ghost use Rattle.hc_transcript.specs.Fields.{Number32, Number64, Integer, Name, Key, Last, Next, content_text, IsContent};
ghost use Rattle.hc_transcript.specs.Table.{between, line_told, refusal_fields};

use crate::literals::{print_blob, print_number, print_text};
use hc_transcript::{BoxedKey, NumbersTag, Told, words_between};
use hc_value::{NoMemory, Str};

/// The fields of a refusal, without the line's end.
pub fn print_fields(out: &mut Vec<u8>, told: Told<'_>) -> Result<(), NoMemory>
    ensures text { OnOk result (out.new.items ≡ out.old.items
        ++ content_text (refusal_fields (line_told told.entry).0) (line_told told.entry).1) }
    ensures fits { OnOk result (IsContent (refusal_fields (line_told told.entry).0) (line_told told.entry).1) }
{
    match told {
        Told::Bare(_) => Ok(()),
        Told::Number(_, n) => number(out, n),
        Told::Name(_, text) => name(out, text),
        Told::Names(_, table, text) => names(out, table, text),
        Told::Numbers(tag, first, second) => numbers(out, tag, first, second),
        Told::NoItem(item) => integer(out, item),
        Told::TooBig(length) => length_of(out, length),
        Told::Busy(conn, ord, key) => busy(out, conn, ord, key),
    }
}

fn number(out: &mut Vec<u8>, n: u32) -> Result<(), NoMemory>
    ensures text { OnOk result (out.new.items ≡ out.old.items ++ content_text (Last Number32) n) }
    ensures fits { OnOk result (IsContent (Last Number32) n) }
{
    print_number(out, n)
}

fn name(out: &mut Vec<u8>, text: &Str) -> Result<(), NoMemory>
    ensures text { OnOk result (out.new.items ≡ out.old.items ++ content_text (Last Name) text.now) }
    ensures fits { OnOk result (IsContent (Last Name) text.now) }
{
    print_text(out, text)
}

fn names(out: &mut Vec<u8>, table: &Str, text: &Str) -> Result<(), NoMemory>
    ensures text { OnOk result (out.new.items ≡ out.old.items
        ++ content_text (Next Name [] (Last Name)) (table.now, text.now)) }
    ensures fits { OnOk result (IsContent (Next Name [] (Last Name)) (table.now, text.now)) }
{
    print_text(out, table)?;
    out.push(b' ')?;
    print_text(out, text)
}

fn numbers(out: &mut Vec<u8>, tag: NumbersTag, first: u32, second: u32) -> Result<(), NoMemory>
    ensures text { OnOk result (out.new.items ≡ out.old.items
        ++ content_text (Next Number32 (between tag) (Last Number32)) (first, second)) }
    ensures fits { OnOk result (IsContent (Next Number32 (between tag) (Last Number32)) (first, second)) }
{
    print_number(out, first)?;
    out.extend_from_slice(words_between(tag))?;
    print_number(out, second)
}

fn integer(out: &mut Vec<u8>, item: i64) -> Result<(), NoMemory>
    ensures text { OnOk result (out.new.items ≡ out.old.items ++ content_text (Last Integer) item) }
    ensures fits { OnOk result (IsContent (Last Integer) item) }
{
    print_number(out, item)
}

fn length_of(out: &mut Vec<u8>, length: u64) -> Result<(), NoMemory>
    ensures text { OnOk result (out.new.items ≡ out.old.items ++ content_text (Last Number64) length) }
    ensures fits { OnOk result (IsContent (Last Number64) length) }
{
    print_number(out, length)
}

fn busy(out: &mut Vec<u8>, conn: u32, ord: u32, key: &BoxedKey) -> Result<(), NoMemory>
    ensures text { OnOk result (out.new.items ≡ out.old.items
        ++ content_text (Next Number32 (codes "txn ") (Next Number32 (codes "key ") (Last Key))) (conn, (ord, key.now))) }
    ensures fits { OnOk result
        (IsContent (Next Number32 (codes "txn ") (Next Number32 (codes "key ") (Last Key))) (conn, (ord, key.now))) }
{
    print_number(out, conn)?;
    out.extend_from_slice(b" txn ")?;
    print_number(out, ord)?;
    out.extend_from_slice(b" key ")?;
    print_blob(out, key.as_slice())
}
