// Words, numbers and blobs: the tokens that are runs of characters.
ghost use Rattle.std.specs.Prelude.{◌≡◌, ◌≤◌, ◌<◌, length, true, false, IfOk, IfErr, IfSome, IfNone};
ghost use Rattle.hc_lex.specs.declared.character.Class.TheVariants.{Letter};
ghost use Rattle.hc_lex.specs.declared.character.Run.TheVariants.{Number};
ghost use Rattle.hc_lex.specs.Characters.{Begins, GoesOn, IsRun, class_of};
ghost use Rattle.hc_lex.specs.Flaws.{IsFlaw};
ghost use Rattle.hc_lex.specs.Pieces.{Skips};
ghost use Rattle.hc_lex.specs.Tokens.{BeginsBlob, BeginsSpoiler, ClosesBlob, ClosesNoBlob, IsToken, greatest_integer, value_of};

use crate::character::{Run, is_in, skip_byte, split_run};
use crate::fault::{Flaw, LexKind};
use crate::keyword::keyword_of;
use crate::token::TokenKind;

// The least integer without its minus.
const GREATEST: u64 = 9_223_372_036_854_775_808;

/// The word in front, and what follows it.
pub fn read_word(bytes: &[u8]) -> (TokenKind, &[u8])
    requires letter { Begins (λ b. class_of b ≡ Letter) bytes.now }
    requires no_blob { ¬ BeginsBlob bytes.now }
    ensures { Skips (IsToken result.0) bytes.now result.1.now }
{
    let (word, rest) = split_run(Run::Name, bytes);
    match keyword_of(word) {
        Some(keyword) => (TokenKind::Keyword(keyword), rest),
        None => (TokenKind::Name, rest),
    }
}

/// The number in front, and what follows it.
pub fn read_number(bytes: &[u8]) -> Result<(TokenKind, &[u8]), Flaw>
    requires { GoesOn Number bytes.now }
    ensures ok { IfOk result (λ read. Skips (IsToken read.0) bytes.now read.1.now) }
    ensures err { IfErr result (λ flaw. IsFlaw flaw.kind flaw.offset bytes.now) }
    ensures within { IfErr result (λ flaw. flaw.offset ≤ length bytes.now) }
{
    let (digits, rest) = split_run(Run::Number, bytes);
    let Some(value) = value_of(digits) else {
        return Err(Flaw::at_front(LexKind::TooLarge));
    };
    if is_spoiler(rest) {
        return Err(Flaw {
            offset: digits.len(),
            kind: LexKind::Char,
        });
    }
    Ok((TokenKind::Integer(value), rest))
}

// The value of digits, where a number may have it.
fn value_of(digits: &[u8]) -> Option<u64>
    requires { IsRun Number digits.now }
    ensures some { IfSome result (λ value. (value ≡ value_of digits.now) × (value ≤ greatest_integer)) }
    ensures none { IfNone result (greatest_integer < value_of digits.now) }
{
    let mut value: u64 = 0;
    for b in digits {
        if value > GREATEST / 10 {
            return None;
        }
        value = value * 10 + u64::from(*b - b'0');
    }
    if value > GREATEST {
        return None;
    }
    Some(value)
}

// Whether this may not follow a number.
fn is_spoiler(bytes: &[u8]) -> bool
    ensures yes { result ≡ true → BeginsSpoiler bytes.now }
    ensures no { result ≡ false → ¬ BeginsSpoiler bytes.now }
{
    match bytes.split_first() {
        Some((first, _)) => *first == b'.' || is_in(Run::Name, *first),
        None => false,
    }
}

/// What follows a blob, of bytes that follow its opening quote.
pub fn skip_blob(bytes: &[u8]) -> Option<&[u8]>
    ensures some { IfSome result (λ rest. ClosesBlob bytes.now rest.now) }
    ensures none { IfNone result (ClosesNoBlob bytes.now) }
{
    let (digits, rest) = split_run(Run::Blob, bytes);
    if digits.len() % 2 != 0 {
        return None;
    }
    skip_byte(b'\'', rest)
}
