// The tag of a line, by its words.
ghost use Rattle.std.specs.Prelude.{◌≡◌, ◌⊎◌, ◌++◌, true, IfOk, IfErr};
ghost use Rattle.std.specs.List.{Contains};
ghost use Rattle.hc_transcript.specs.declared.tag.LineTag.{LineTag as Tag};
ghost use Rattle.hc_transcript.specs.Words.{tag_words};
ghost use Rattle.hc_reply.specs.Lines.{MayCome, may_come};
ghost use Rattle.hc_reply.specs.Mismatches.{Anything, MismatchIn};

use crate::allowed::Allowed;
use crate::mismatch::Mismatch;
use crate::word::common;
use hc_transcript::{LINE_TAGS, LineTag, tag_words};

/// The tag of a line that may come next, and what follows its words.
pub fn expect_tag(allowed: Allowed, bytes: &[u8]) -> Result<(LineTag, &[u8]), Mismatch<'_>>
    requires some { (allowed.conn ≡ true) ⊎ (allowed.reply ≡ true) }
    ensures found { IfOk result (λ x. MayCome allowed x.0 × (bytes.now ≡ tag_words x.0 ++ x.1.now)) }
    ensures stop { IfErr result (MismatchIn Anything (MayCome allowed) tag_words bytes.now) }
{
    expect_among(&LINE_TAGS, allowed, bytes)
}

// The same, where every tag is one of these.
fn expect_among<'a>(
    tags: &[LineTag],
    allowed: Allowed,
    bytes: &'a [u8],
) -> Result<(LineTag, &'a [u8]), Mismatch<'a>>
    requires some { (allowed.conn ≡ true) ⊎ (allowed.reply ≡ true) }
    requires each { (tag : Tag) → Contains tags.now tag }
    ensures found { IfOk result (λ x. MayCome allowed x.0 × (bytes.now ≡ tag_words x.0 ++ x.1.now)) }
    ensures stop { IfErr result (MismatchIn Anything (MayCome allowed) tag_words bytes.now) }
{
    let mut most = 0;
    let mut left = tags;
    while let Some((tag, others)) = left.split_first() {
        if may_come(allowed, *tag) {
            let words = tag_words(*tag);
            let n = common(words, bytes);
            if n == words.len() {
                return Ok((*tag, &bytes[n..]));
            }
            if n > most {
                most = n;
            }
        }
        left = others;
    }
    Err(Mismatch::At(&bytes[most..]))
}

// Whether such a line may come next.
fn may_come(allowed: Allowed, tag: LineTag) -> bool
    ensures { result ≡ may_come allowed tag }
{
    match tag {
        LineTag::Conn => allowed.conn,
        LineTag::Ending(_) => allowed.ending,
        _ => allowed.reply,
    }
}
