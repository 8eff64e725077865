// Which byte may come next in a text or in any bytes. A text is read byte by byte, by table 3-7, "Well-Formed
// UTF-8 Byte Sequences", of the Unicode Standard.
ghost use Rattle.std.specs.Prelude.{◌≡◌, ◌<◌, [], IfSome, IfNone};
ghost use Rattle.hc_text.specs.Utf8.{Completes, IsOpen, IsNext, IsRefused};

/// What may come next.
#[derive(Clone, Copy, Debug)]
pub enum Expected {
    /// Any bytes.
    Any,
    /// A text, so a character or nothing.
    Character,
    /// So many more bytes of a character, of which the next lies from `low` to `high`; and then a text.
    Following { more: u8, low: u8, high: u8 },
}

/// What may come after a byte; nothing where the byte may not come.
pub fn next_expected(expected: Expected, byte: u8) -> Option<Expected>
    requires { IsOpen expected }
    ensures next { IfSome result (λ next. IsNext expected byte next) }
    ensures refused { IfNone result (IsRefused expected byte) }
    // A byte of ASCII may come exactly where the bytes may end.
    ensures ends { IfSome result (λ next. byte < 128 → Completes expected []) }
    ensures goes_on { IfNone result (byte < 128 → Completes expected [] → ⊥) }
{
    match expected {
        Expected::Any => Some(Expected::Any),
        Expected::Character => after_first(byte),
        Expected::Following { more, low, high } => after_later(more, low, high, byte),
    }
}

// What follows the first byte of a character.
fn after_first(byte: u8) -> Option<Expected>
    ensures next { IfSome result (λ next. IsNext Expected.Character byte next) }
    ensures refused { IfNone result (IsRefused Expected.Character byte) }
{
    match byte {
        0x00..=0x7f => Some(Expected::Character),
        0xc2..=0xdf => Some(following(1, 0x80, 0xbf)),
        0xe0 => Some(following(2, 0xa0, 0xbf)),
        0xe1..=0xec => Some(following(2, 0x80, 0xbf)),
        0xed => Some(following(2, 0x80, 0x9f)),
        0xee..=0xef => Some(following(2, 0x80, 0xbf)),
        0xf0 => Some(following(3, 0x90, 0xbf)),
        0xf1..=0xf3 => Some(following(3, 0x80, 0xbf)),
        0xf4 => Some(following(3, 0x80, 0x8f)),
        _ => None,
    }
}

fn following(more: u8, low: u8, high: u8) -> Expected
    ensures { result ≡ Expected.Following more low high }
{
    Expected::Following { more, low, high }
}

// What follows a later byte of a character.
fn after_later(more: u8, low: u8, high: u8, byte: u8) -> Option<Expected>
    requires { IsOpen (Expected.Following more low high) }
    ensures next { IfSome result (λ next. IsNext (Expected.Following more low high) byte next) }
    ensures refused { IfNone result (IsRefused (Expected.Following more low high) byte) }
{
    if byte < low || byte > high {
        return None;
    }
    if more == 1 {
        return Some(Expected::Character);
    }
    Some(following(more - 1, 0x80, 0xbf))
}
