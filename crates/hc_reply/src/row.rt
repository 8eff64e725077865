// The values of a row, with bars between them and a line feed at the end.
ghost use Rattle.std.specs.Prelude.{◌≡◌, ◌∷◌, ◌++◌, IfOk, IfErr, IfSome, IfNone};
ghost use Rattle.hc_transcript.specs.Fields.{Values, IsContent};
ghost use Rattle.hc_reply.specs.Fields.{content_end};
ghost use Rattle.hc_reply.specs.Rows.{NoSeparator, separator};
ghost use Rattle.hc_reply.specs.Mismatches.{Anything, MismatchIn};

use crate::mismatch::Mismatch;
use crate::value::value;
use hc_value::Value;
use sqlite_items::Items;
use std::alloc::Global;

/// The values up to the line's end, and what is left.
pub fn row<'a>(alloc: Global, bytes: &'a [u8]) -> Result<(Items<Value>, &'a [u8]), Mismatch<'a>>
    ensures found { IfOk result (λ x. IsContent Values x.0 × (bytes.now ≡ content_end Values x.0 ++ x.1.now)) }
    ensures stop { IfErr result (MismatchIn Anything (IsContent Values) (content_end Values) bytes.now) }
{
    let mut values = Items::new(alloc);
    let mut rest = bytes;
    loop {
        let (next, after) = value(alloc, rest)?;
        let Some((is_last, left)) = separator(after) else {
            return Err(Mismatch::At(after));
        };
        values.push(next)?;
        if is_last {
            return Ok((values, left));
        }
        rest = left;
    }
}

// Whether the last value is before a separator, and what follows it.
fn separator(bytes: &[u8]) -> Option<(bool, &[u8])>
    ensures some { IfSome result (λ x. bytes.now ≡ separator x.0 ∷ x.1.now) }
    ensures none { IfNone result (NoSeparator bytes.now) }
{
    match bytes {
        [b'\n', rest @ ..] => Some((true, rest)),
        [b'|', rest @ ..] => Some((false, rest)),
        _ => None,
    }
}
