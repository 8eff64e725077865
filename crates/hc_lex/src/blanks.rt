// Whitespace: spaces and comments, which may be between tokens.
ghost use Rattle.std.specs.Prelude.{◌∷◌, IfSome, IfNone};
ghost use Rattle.hc_lex.specs.Blanks.{BeginsNoBlank, IsBlank};
ghost use Rattle.hc_lex.specs.Characters.{BeginsWith};
ghost use Rattle.hc_lex.specs.Pieces.{Skips};

use crate::character::{Class, Run, class_of, skip_byte, split_run};

/// What follows the space or the comment in front.
pub fn skip_blank(bytes: &[u8]) -> Option<&[u8]>
    ensures some { IfSome result (λ rest. Skips IsBlank bytes.now rest.now) }
    ensures none { IfNone result (BeginsNoBlank bytes.now) }
{
    let Some((first, tail)) = bytes.split_first() else {
        return None;
    };
    match *first {
        b'-' => skip_line_comment(tail),
        b'/' => skip_block_comment(tail),
        b => match class_of(b) {
            Class::Space => Some(tail),
            _ => None,
        },
    }
}

// The same of bytes that follow a `-`.
fn skip_line_comment(bytes: &[u8]) -> Option<&[u8]>
    ensures some { IfSome result (λ rest. Skips IsBlank (45 ∷ bytes.now) rest.now) }
    ensures none { IfNone result (¬ BeginsWith 45 bytes.now) }
{
    let Some(inner) = skip_byte(b'-', bytes) else {
        return None;
    };
    let (_, rest) = split_run(Run::Line, inner);
    Some(rest)
}

// The same of bytes that follow a `/`.
fn skip_block_comment(bytes: &[u8]) -> Option<&[u8]>
    ensures some { IfSome result (λ rest. Skips IsBlank (47 ∷ bytes.now) rest.now) }
    ensures none { IfNone result (¬ BeginsWith 42 bytes.now) }
{
    let Some(inner) = skip_byte(b'*', bytes) else {
        return None;
    };
    Some(skip_to_close(inner))
}

// What follows the first `*/`, or nothing where there is none, of bytes that follow a `/*`.
fn skip_to_close(bytes: &[u8]) -> &[u8]
    ensures { Skips IsBlank (47 ∷ 42 ∷ bytes.now) result.now }
{
    let mut rest = bytes;
    while let Some((first, tail)) = rest.split_first() {
        if *first == b'*' {
            if let Some(after) = skip_byte(b'/', tail) {
                return after;
            }
        }
        rest = tail;
    }
    rest
}
