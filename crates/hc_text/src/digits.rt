// Hexadecimal digits.
ghost use Rattle.std.specs.Prelude.{◌≡◌, ℕ, ◌<◌, IfSome, IfNone, true, false};
ghost use Rattle.std.specs.Char.{is_ascii_hexdigit, digit_value};
ghost use Rattle.hc_text.specs.Digits.{byte_digits, hex_digit};

/// The digit of a number below 16, in upper case.
pub fn hex_digit(value: u8) -> u8
    requires { value < 16 }
    ensures digit { result ≡ hex_digit value }
    ensures ascii { result < 128 }
{
    if value < 10 {
        b'0' + value
    } else {
        b'A' - 10 + value
    }
}

/// The two digits of a byte, the high one first.
pub fn byte_digits(byte: u8) -> [u8; 2]
    ensures { result ≡ byte_digits byte }
{
    [hex_digit(byte / 16), hex_digit(byte % 16)]
}

/// The value of a digit, in upper or in lower case; nothing where the byte is no digit.
pub fn hex_value(byte: u8) -> Option<u8>
    ensures digit { IfSome result (λ value. is_ascii_hexdigit byte ≡ true) }
    ensures value { IfSome result (λ value. (value < 16) × (value ≡ digit_value byte)) }
    ensures none { IfNone result (is_ascii_hexdigit byte ≡ false) }
{
    if !byte.is_ascii_hexdigit() {
        return None;
    }
    Some(match byte {
        b'0'..=b'9' => byte - b'0',
        b'A'..=b'F' => byte - b'A' + 10,
        _ => byte - b'a' + 10,
    })
}

/// The value of a digit in upper case; nothing where the byte is none.
#[tactic(auto, using(crate::proofs::HexDigits::of_upper))]
pub fn upper_hex_value(byte: u8) -> Option<u8>
    ensures some { IfSome result (λ value. (value < 16) × (byte ≡ hex_digit value)) }
    ensures none { IfNone result ((value : ℕ) → value < 16 → byte ≡ hex_digit value → ⊥) }
{
    if byte > b'F' {
        return None;
    }
    hex_value(byte)
}
