// What each byte may be part of.
ghost use Rattle.std.specs.Prelude.{◌≡◌, ◌∷◌, MatchOption};
ghost use Rattle.hc_lex.specs.Characters.{BeginsRun, BeginsWith, class_of, is_in};

/// The class of a character. A character past ASCII is bytes from 128 on, each of them a `Letter`.
#[derive(Clone, Copy, Debug)]
pub enum Class {
    Space,
    Letter,
    Digit,
    Dollar,
    Quote,
    Sign,
    Other,
}

/// Characters that belong together: those of a name, of a number, of a blob, of a line comment.
#[derive(Clone, Copy, Debug)]
pub enum Run {
    Name,
    Number,
    Blob,
    Line,
}

/// The class of a byte.
#[tactic(auto, unfolding(crate::specs::Characters::class_of))]
pub fn class_of(b: u8) -> Class
    ensures { result ≡ class_of b }
{
    match b {
        b'\t' | b'\n' | b'\x0c' | b'\r' | b' ' => Class::Space,
        b'A'..=b'Z' | b'_' | b'a'..=b'z' | 128..=255 => Class::Letter,
        b'0'..=b'9' => Class::Digit,
        b'$' => Class::Dollar,
        b'"' | b'\'' => Class::Quote,
        b'!' | b'%' | b'('..=b'/' | b';'..=b'>' | b'|' => Class::Sign,
        _ => Class::Other,
    }
}

/// Whether a byte belongs to a run.
#[inline(always)]
pub fn is_in(run: Run, b: u8) -> bool
    ensures { result ≡ is_in run b }
{
    match run {
        Run::Name => matches!(class_of(b), Class::Letter | Class::Digit | Class::Dollar),
        Run::Number => b.is_ascii_digit(),
        Run::Blob => b.is_ascii_hexdigit(),
        Run::Line => b != b'\n',
    }
}

/// The longest run in front, which may be empty, and what follows it.
#[inline(always)]
pub fn split_run(run: Run, bytes: &[u8]) -> (&[u8], &[u8])
    ensures { BeginsRun run bytes.now result.0.now result.1.now }
{
    for (i, b) in bytes.iter().enumerate() {
        if !is_in(run, *b) {
            return bytes.split_at(i);
        }
    }
    (bytes, &[])
}

/// What follows this byte, where it is in front.
pub fn skip_byte(b: u8, bytes: &[u8]) -> Option<&[u8]>
    ensures { MatchOption result (¬ BeginsWith b bytes.now) (λ rest. bytes.now ≡ b ∷ rest.now) }
{
    match bytes.split_first() {
        Some((first, rest)) if *first == b => Some(rest),
        _ => None,
    }
}
