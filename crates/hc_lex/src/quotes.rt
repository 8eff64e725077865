// Texts and quoted names.
ghost use Rattle.std.specs.Prelude.{◌∷◌, IfSome, IfNone};
ghost use Rattle.hc_lex.specs.Pieces.{Skips};
ghost use Rattle.hc_lex.specs.Quotes.{IsOpenQuoted, IsQuoted};

use crate::character::skip_byte;

/// What follows the closing quote, of bytes that follow the opening one.
pub fn skip_quoted(quote: u8, bytes: &[u8]) -> Option<&[u8]>
    ensures some { IfSome result (λ rest. Skips (IsQuoted quote) (quote ∷ bytes.now) rest.now) }
    ensures none { IfNone result (IsOpenQuoted quote (quote ∷ bytes.now)) }
{
    let mut rest = bytes;
    while let Some((first, tail)) = rest.split_first() {
        if *first == quote {
            match skip_byte(quote, tail) {
                Some(after) => rest = after,
                None => return Some(tail),
            }
        } else {
            rest = tail;
        }
    }
    None
}
