// The fields of a refusal, by its tag.
ghost use Rattle.std.specs.Prelude.{◌≡◌, IfOk, IfErr};
ghost use Rattle.hc_transcript.specs.declared.tag.RefusalTag.TheVariants as refusal_tag;
ghost use Rattle.hc_reply.specs.Lines.{IsRefusalRead, RefusalMismatch};

use crate::fields::{integer_end, key_end, name, number_32, number_64};
use crate::mismatch::Mismatch;
use crate::word::expect_word;
use hc_transcript::{
    BareTag, BoxedKey, NameTag, NamesTag, NumberTag, NumbersTag, Refusal, RefusalTag, bare_of,
    name_of, names_of, number_of, numbers_of, words_between,
};
use std::alloc::Global;

/// The refusal with this tag whose fields are at the front of the bytes, and what is left.
pub fn refusal<'a>(
    alloc: Global,
    tag: RefusalTag,
    bytes: &'a [u8],
) -> Result<(Refusal, &'a [u8]), Mismatch<'a>>
    ensures found { IfOk result (λ x. IsRefusalRead tag bytes.now x.0 x.1.now) }
    ensures stop { IfErr result (RefusalMismatch tag bytes.now) }
{
    match tag {
        RefusalTag::Bare(tag) => bare(tag, bytes),
        RefusalTag::Number(tag) => with_number(tag, bytes),
        RefusalTag::Name(tag) => with_name(alloc, tag, bytes),
        RefusalTag::Names(tag) => with_names(alloc, tag, bytes),
        RefusalTag::Numbers(tag) => with_numbers(tag, bytes),
        RefusalTag::NoItem => no_item(bytes),
        RefusalTag::TooBig => too_big(bytes),
        RefusalTag::Busy => busy(alloc, bytes),
    }
}

fn bare(tag: BareTag, bytes: &[u8]) -> Result<(Refusal, &[u8]), Mismatch<'_>>
    ensures found { IfOk result (λ x. IsRefusalRead (refusal_tag.Bare tag) bytes.now x.0 x.1.now) }
    ensures stop { IfErr result (RefusalMismatch (refusal_tag.Bare tag) bytes.now) }
{
    let rest = expect_word(b"\n", bytes)?;
    Ok((bare_of(tag), rest))
}

fn with_number(tag: NumberTag, bytes: &[u8]) -> Result<(Refusal, &[u8]), Mismatch<'_>>
    ensures found { IfOk result (λ x. IsRefusalRead (refusal_tag.Number tag) bytes.now x.0 x.1.now) }
    ensures stop { IfErr result (RefusalMismatch (refusal_tag.Number tag) bytes.now) }
{
    let (n, rest) = number_32(b"\n", bytes)?;
    Ok((number_of(tag, n), rest))
}

fn with_name<'a>(
    alloc: Global,
    tag: NameTag,
    bytes: &'a [u8],
) -> Result<(Refusal, &'a [u8]), Mismatch<'a>>
    ensures found { IfOk result (λ x. IsRefusalRead (refusal_tag.Name tag) bytes.now x.0 x.1.now) }
    ensures stop { IfErr result (RefusalMismatch (refusal_tag.Name tag) bytes.now) }
{
    let (name, rest) = name(alloc, b"\n", bytes)?;
    Ok((name_of(tag, name), rest))
}

fn with_names<'a>(
    alloc: Global,
    tag: NamesTag,
    bytes: &'a [u8],
) -> Result<(Refusal, &'a [u8]), Mismatch<'a>>
    ensures found { IfOk result (λ x. IsRefusalRead (refusal_tag.Names tag) bytes.now x.0 x.1.now) }
    ensures stop { IfErr result (RefusalMismatch (refusal_tag.Names tag) bytes.now) }
{
    let (first, after) = name(alloc, b" ", bytes)?;
    let (second, rest) = name(alloc, b"\n", after)?;
    Ok((names_of(tag, first, second), rest))
}

fn with_numbers(tag: NumbersTag, bytes: &[u8]) -> Result<(Refusal, &[u8]), Mismatch<'_>>
    ensures found { IfOk result (λ x. IsRefusalRead (refusal_tag.Numbers tag) bytes.now x.0 x.1.now) }
    ensures stop { IfErr result (RefusalMismatch (refusal_tag.Numbers tag) bytes.now) }
{
    let (first, after) = number_32(words_between(tag), bytes)?;
    let (second, rest) = number_32(b"\n", after)?;
    Ok((numbers_of(tag, first, second), rest))
}

fn no_item(bytes: &[u8]) -> Result<(Refusal, &[u8]), Mismatch<'_>>
    ensures found { IfOk result (λ x. IsRefusalRead refusal_tag.NoItem bytes.now x.0 x.1.now) }
    ensures stop { IfErr result (RefusalMismatch refusal_tag.NoItem bytes.now) }
{
    let (item, rest) = integer_end(bytes)?;
    Ok((Refusal::NoItem(item), rest))
}

fn too_big(bytes: &[u8]) -> Result<(Refusal, &[u8]), Mismatch<'_>>
    ensures found { IfOk result (λ x. IsRefusalRead refusal_tag.TooBig bytes.now x.0 x.1.now) }
    ensures stop { IfErr result (RefusalMismatch refusal_tag.TooBig bytes.now) }
{
    let (length, rest) = number_64(bytes)?;
    Ok((Refusal::TooBig(length), rest))
}

fn busy<'a>(alloc: Global, bytes: &'a [u8]) -> Result<(Refusal, &'a [u8]), Mismatch<'a>>
    ensures found { IfOk result (λ x. IsRefusalRead refusal_tag.Busy bytes.now x.0 x.1.now) }
    ensures stop { IfErr result (RefusalMismatch refusal_tag.Busy bytes.now) }
{
    let (conn, after) = number_32(b" txn ", bytes)?;
    let (ord, other) = number_32(b" key ", after)?;
    let (key, rest) = key_end(alloc, other)?;
    let room = BoxedKey::new(alloc)?;
    Ok((Refusal::busy(room, conn, ord, key.as_slice()), rest))
}
