// One line of an output, as what it says, and its reader.
ghost use Rattle.std.specs.Prelude.{◌≡◌, ◌⊎◌, ◌^◌, ◌<◌, ◌++◌, true, IfOk, IfErr};
ghost use Rattle.hc_transcript.specs.declared.tag.LineTag.TheVariants as line_tag;
ghost use Rattle.hc_reply.specs.Lines.{IsExpected, IsLineRead, LineMismatch, ending_of, output_line_text};
ghost use Rattle.hc_reply.specs.Mismatches.{Anything, MismatchIn};

use crate::allowed::Allowed;
use crate::expected_tag::expect_tag;
use crate::fields::{number_32, number_64, number_within};
use crate::mismatch::Mismatch;
use crate::refusal_fields::refusal;
use crate::row::row;
use crate::{Ending, Line, Row};
use hc_transcript::{EndingTag, LineTag, RefusalTag};
use std::alloc::Global;

/// One line of an output, as what it says.
#[derive(Debug, Drop)]
pub enum OutputLine {
    /// The replies of the connection with this number follow.
    Conn(u32),
    /// A row of a reply.
    Row(Row),
    /// The last line of a reply.
    Last(Line),
    /// How a transaction ended with the reply.
    Ending(Ending),
}

/// A line that may come next, and what is left. A connection's number is no less than `low`.
pub fn read_line<'a>(
    alloc: Global,
    allowed: Allowed,
    low: u64,
    bytes: &'a [u8],
) -> Result<(OutputLine, &'a [u8]), Mismatch<'a>>
    requires some { (allowed.conn ≡ true) ⊎ (allowed.reply ≡ true) }
    requires low { allowed.conn ≡ true → low < 2 ^ 32 }
    ensures found { IfOk result (λ x. IsExpected allowed low x.0 × (bytes.now ≡ output_line_text x.0 ++ x.1.now)) }
    ensures stop { IfErr result (MismatchIn Anything (IsExpected allowed low) output_line_text bytes.now) }
{
    let (tag, after) = expect_tag(allowed, bytes)?;
    let (line, rest) = read_fields(alloc, low, tag, after)?;
    Ok((line, rest))
}

// The line with this tag whose fields are at the front of the bytes, and what is left.
fn read_fields<'a>(
    alloc: Global,
    low: u64,
    tag: LineTag,
    bytes: &'a [u8],
) -> Result<(OutputLine, &'a [u8]), Mismatch<'a>>
    requires low { tag ≡ line_tag.Conn → low < 2 ^ 32 }
    ensures found { IfOk result (λ x. IsLineRead low tag bytes.now x.0 x.1.now) }
    ensures stop { IfErr result (LineMismatch low tag bytes.now) }
{
    match tag {
        LineTag::Conn => conn(low, bytes),
        LineTag::Row => row_line(alloc, low, bytes),
        LineTag::Ok => count(low, bytes),
        LineTag::Ending(tag) => ending(low, tag, bytes),
        LineTag::Refusal(tag) => error(alloc, low, tag, bytes),
    }
}

fn conn(low: u64, bytes: &[u8]) -> Result<(OutputLine, &[u8]), Mismatch<'_>>
    requires { low < 2 ^ 32 }
    ensures found { IfOk result (λ x. IsLineRead low line_tag.Conn bytes.now x.0 x.1.now) }
    ensures stop { IfErr result (LineMismatch low line_tag.Conn bytes.now) }
{
    let (n, rest) = number_within(low, u64::from(u32::MAX), b"\n", bytes)?;
    Ok((OutputLine::Conn(n as u32), rest))
}

fn row_line<'a>(
    alloc: Global,
    low: u64,
    bytes: &'a [u8],
) -> Result<(OutputLine, &'a [u8]), Mismatch<'a>>
    ensures found { IfOk result (λ x. IsLineRead low line_tag.Row bytes.now x.0 x.1.now) }
    ensures stop { IfErr result (LineMismatch low line_tag.Row bytes.now) }
{
    let (values, rest) = row(alloc, bytes)?;
    Ok((OutputLine::Row(Row { values }), rest))
}

fn count(low: u64, bytes: &[u8]) -> Result<(OutputLine, &[u8]), Mismatch<'_>>
    ensures found { IfOk result (λ x. IsLineRead low line_tag.Ok bytes.now x.0 x.1.now) }
    ensures stop { IfErr result (LineMismatch low line_tag.Ok bytes.now) }
{
    let (n, rest) = number_64(bytes)?;
    Ok((OutputLine::Last(Line::Ok(n)), rest))
}

fn ending(low: u64, tag: EndingTag, bytes: &[u8]) -> Result<(OutputLine, &[u8]), Mismatch<'_>>
    ensures found { IfOk result (λ x. IsLineRead low (line_tag.Ending tag) bytes.now x.0 x.1.now) }
    ensures stop { IfErr result (LineMismatch low (line_tag.Ending tag) bytes.now) }
{
    let (n, rest) = number_32(b"\n", bytes)?;
    Ok((OutputLine::Ending(ending_of(tag, n)), rest))
}

fn ending_of(tag: EndingTag, n: u32) -> Ending
    ensures { result ≡ ending_of tag n }
{
    match tag {
        EndingTag::Commit => Ending::Commit(n),
        EndingTag::Snapshot => Ending::Snapshot(n),
        EndingTag::RolledBack => Ending::RolledBack(n),
    }
}

fn error<'a>(
    alloc: Global,
    low: u64,
    tag: RefusalTag,
    bytes: &'a [u8],
) -> Result<(OutputLine, &'a [u8]), Mismatch<'a>>
    ensures found { IfOk result (λ x. IsLineRead low (line_tag.Refusal tag) bytes.now x.0 x.1.now) }
    ensures stop { IfErr result (LineMismatch low (line_tag.Refusal tag) bytes.now) }
{
    let (refusal, rest) = refusal(alloc, tag, bytes)?;
    Ok((OutputLine::Last(Line::Error(refusal)), rest))
}
