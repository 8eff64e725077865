// The text of each part of an answer, appended to what is there.
ghost use Rattle.std.specs.Prelude.{◌≡◌, ◌≢◌, [], ◌∷◌, ◌++◌, map, IfOk, OnOk};
ghost use Rattle.std.specs.List.{AllByRecursion};
ghost use Rattle.std.specs.List.Sorted.{IsStrictlyIncreasing};
ghost use Rattle.hc_transcript.specs.declared.tag.LineTag.TheVariants as line_tag;
ghost use Rattle.hc_transcript.specs.Words.{tag_words};
ghost use Rattle.hc_transcript.specs.Text.{row_text, last_text, line_text, refusal_text, ending_text, ending_text_if, reply_text, transcript_text, output_text};
ghost use Rattle.hc_transcript.specs.Outputs.{IsRow, IsRefusal, IsLast, IsEnding, IsEndingIf, IsReply, IsTranscript, IsTextOf, HasValues, RowsHaveValues, RepliesHaveValues, HaveValues};

use crate::literals::{print_number, print_values};
use crate::printed_refusal::print_fields;
use crate::{Ending, Line, Refusal, Reply, Row, Transcript};
use hc_text::Bytes;
use hc_transcript::{EndingTag, LineTag, RefusalTag, Told, tag_words};
use hc_value::NoMemory;
use itoa::Integer;
use std::alloc::Global;

/// The text of a run's answers: for each connection the line `conn C`, and then its replies. A
/// connection is there once and in order of the numbers, and one without replies not at all. The text is an output,
/// and it stands for these transcripts, so `read` reads them again.
pub fn print(alloc: Global, all: &[Transcript]) -> Result<Bytes, NoMemory>
    requires ascending { IsStrictlyIncreasing (map (λ t. t.conn) all.now) }
    requires replies { AllByRecursion (λ t. t.replies ≢ []) all.now }
    requires values { HaveValues all.now }
    ensures text { IfOk result (λ text. text ≡ output_text all.now) }
    ensures output { IfOk result (λ text. IsTextOf text all.now) }
{
    let mut out = Vec::new(alloc);
    for transcript in all {
        print_transcript(&mut out, transcript)?;
    }
    Ok(Bytes::from_vec(out))
}

fn print_transcript(out: &mut Vec<u8>, transcript: &Transcript) -> Result<(), NoMemory>
    requires replies { transcript.now.replies ≢ [] }
    requires values { RepliesHaveValues transcript.now }
    ensures text { OnOk result (out.new.items ≡ out.old.items ++ transcript_text transcript.now) }
    ensures fits { OnOk result (IsTranscript transcript.now) }
{
    number_line(out, LineTag::Conn, transcript.conn)?;
    for reply in transcript.replies.as_slice() {
        print_reply(out, reply)?;
    }
    Ok(())
}

fn print_reply(out: &mut Vec<u8>, reply: &Reply) -> Result<(), NoMemory>
    requires values { RowsHaveValues reply.now }
    ensures text { OnOk result (out.new.items ≡ out.old.items ++ reply_text reply.now) }
    ensures fits { OnOk result (IsReply reply.now) }
{
    for row in reply.rows.as_slice() {
        print_row(out, row)?;
    }
    print_last(out, &reply.last)?;
    print_ending_if(out, &reply.ending)
}

fn print_row(out: &mut Vec<u8>, row: &Row) -> Result<(), NoMemory>
    requires values { HasValues row.now }
    ensures text { OnOk result (out.new.items ≡ out.old.items ++ row_text row.now) }
    ensures fits { OnOk result (IsRow row.now) }
{
    open_line(out, LineTag::Row)?;
    print_values(out, row.values.as_slice())?;
    end_line(out)
}

fn print_last(out: &mut Vec<u8>, last: &Line) -> Result<(), NoMemory>
    ensures text { OnOk result (out.new.items ≡ out.old.items ++ last_text last.now) }
    ensures fits { OnOk result (IsLast last.now) }
{
    match last {
        Line::Ok(count) => number_line(out, LineTag::Ok, *count),
        Line::Error(refusal) => print_refusal(out, refusal),
    }
}

fn print_refusal(out: &mut Vec<u8>, refusal: &Refusal) -> Result<(), NoMemory>
    ensures text { OnOk result (out.new.items ≡ out.old.items ++ refusal_text refusal.now) }
    ensures fits { OnOk result (IsRefusal refusal.now) }
{
    let told = refusal.told();
    open_line(out, LineTag::Refusal(told.tag()))?;
    print_fields(out, told)?;
    end_line(out)
}

fn print_ending_if(out: &mut Vec<u8>, ending: &Option<Ending>) -> Result<(), NoMemory>
    ensures text { OnOk result (out.new.items ≡ out.old.items ++ ending_text_if ending.now) }
    ensures fits { OnOk result (IsEndingIf ending.now) }
{
    match ending {
        None => Ok(()),
        Some(ending) => print_ending(out, *ending),
    }
}

fn print_ending(out: &mut Vec<u8>, ending: Ending) -> Result<(), NoMemory>
    ensures text { OnOk result (out.new.items ≡ out.old.items ++ ending_text ending) }
    ensures fits { OnOk result (IsEnding ending) }
{
    match ending {
        Ending::Commit(k) => number_line(out, LineTag::Ending(EndingTag::Commit), k),
        Ending::Snapshot(s) => number_line(out, LineTag::Ending(EndingTag::Snapshot), s),
        Ending::RolledBack(s) => number_line(out, LineTag::Ending(EndingTag::RolledBack), s),
    }
}

// A whole line of words and a number.
fn number_line<N: Integer>(out: &mut Vec<u8>, tag: LineTag, n: N) -> Result<(), NoMemory>
    ensures { OnOk result (out.new.items ≡ out.old.items ++ (tag_words tag ++ N.text n ++ 10 ∷ [])) }
{
    open_line(out, tag)?;
    print_number(out, n)?;
    end_line(out)
}

// The words with which a line opens.
fn open_line(out: &mut Vec<u8>, tag: LineTag) -> Result<(), NoMemory>
    ensures { OnOk result (out.new.items ≡ out.old.items ++ tag_words tag) }
{
    out.extend_from_slice(tag_words(tag))
}

// A line feed.
fn end_line(out: &mut Vec<u8>) -> Result<(), NoMemory>
    ensures { OnOk result (out.new.items ≡ out.old.items ++ 10 ∷ []) }
{
    out.push(b'\n')?;
    Ok(())
}
