// The bounds of the bytes of a character are those of table 3-7, "Well-Formed UTF-8 Byte Sequences", of the Unicode
// Standard.
use hc_text::{
    Bytes, Expected, byte_digits, hex_digit, hex_value, is_same_name, next_expected,
    upper_hex_value,
};
use std::test::Fail;

#[test]
fn bytes_are_what_they_were_made_of(rt: HostRuntime) -> Result<(), Fail> {
    let alloc = rt.alloc();
    let copied = Bytes::from_slice(alloc, b"\x00\xff")?;
    let taken = Bytes::from_vec([0u8, 255].to_vec(alloc)?);
    assert_eq!(rt; copied.as_slice(), b"\x00\xff".as_slice());
    assert_eq!(rt; copied, taken);
    assert!(rt; copied != Bytes::from_slice(alloc, b"\x00")?);
    Ok(())
}

// Bytes that are digits: what they are worth, and whether they are in upper case.
const DIGITS: [(u8, u8, bool); 8] = [
    (b'0', 0, true),
    (b'9', 9, true),
    (b'A', 10, true),
    (b'C', 12, true),
    (b'F', 15, true),
    (b'a', 10, false),
    (b'c', 12, false),
    (b'f', 15, false),
];

#[test]
fn each_digit_has_a_value(rt: HostRuntime) {
    for (digit, value, upper) in DIGITS {
        assert_eq!(rt; hex_value(digit), Some(value));
        assert_eq!(rt;
            upper_hex_value(digit),
            if upper { Some(value) } else { None }
        );
        if upper && value < 16 {
            assert_eq!(rt; hex_digit(value), digit);
        }
    }
    for other in [b'/', b':', b'@', b'G', b'`', b'g', 0x00, 0xff] {
        assert_eq!(rt; hex_value(other), None);
        assert_eq!(rt; upper_hex_value(other), None);
    }
    assert_eq!(rt; byte_digits(0x0f), [b'0', b'F']);
    assert_eq!(rt; byte_digits(0xc3), [b'C', b'3']);
}

// Two names, and whether they are the same.
const NAMES: [(&str, &str, bool); 7] = [
    ("", "", true),
    ("table", "TABLE", true),
    ("aZ_1", "Az_1", true),
    ("a", "b", false),
    ("a", "aa", false),
    ("[", "{", false),
    ("ä", "Ä", false),
];

#[test]
fn names_are_the_same_but_for_case(rt: HostRuntime) {
    for (one, other, same) in NAMES {
        assert_eq!(rt; is_same_name(one, other), same, "{one} and {other}");
    }
}

// Whether so many more bytes of a character are expected, of which the next lies from `low` to `high`.
fn is_following(expected: Option<Expected>, bounds: (u8, u8, u8)) -> bool {
    match expected {
        Some(Expected::Following { more, low, high }) => (more, low, high) == bounds,
        _ => false,
    }
}

#[test]
fn the_first_byte_of_a_character_tells_the_second(rt: HostRuntime) -> Result<(), Fail> {
    for (first, bounds) in [
        (0xc2u8, (1u8, 0x80u8, 0xbfu8)),
        (0xdf, (1, 0x80, 0xbf)),
        (0xe0, (2, 0xa0, 0xbf)),
        (0xe1, (2, 0x80, 0xbf)),
        (0xec, (2, 0x80, 0xbf)),
        (0xed, (2, 0x80, 0x9f)),
        (0xee, (2, 0x80, 0xbf)),
        (0xef, (2, 0x80, 0xbf)),
        (0xf0, (3, 0x90, 0xbf)),
        (0xf1, (3, 0x80, 0xbf)),
        (0xf3, (3, 0x80, 0xbf)),
        (0xf4, (3, 0x80, 0x8f)),
    ] {
        let next = next_expected(Expected::Character, first);
        assert!(rt; is_following(next, bounds), "after {first}");
    }
    for first in [0x00, 0x7f] {
        let next = next_expected(Expected::Character, first);
        assert!(rt; matches!(next, Some(Expected::Character)), "after {first}");
    }
    for first in [0x80, 0xbf, 0xc0, 0xc1, 0xf5, 0xff] {
        let next = next_expected(Expected::Character, first);
        assert!(rt; next.is_none(), "after {first}");
    }
    Ok(())
}

#[test]
fn a_later_byte_of_a_character_lies_in_its_bounds(rt: HostRuntime) -> Result<(), Fail> {
    // After F0, after ED, and where one byte is left.
    let four = Expected::Following {
        more: 3,
        low: 0x90,
        high: 0xbf,
    };
    let surrogates = Expected::Following {
        more: 2,
        low: 0x80,
        high: 0x9f,
    };
    let last = Expected::Following {
        more: 1,
        low: 0x80,
        high: 0xbf,
    };
    assert!(rt; next_expected(four, 0x8f).is_none());
    assert!(rt; is_following(next_expected(four, 0x90), (2, 0x80, 0xbf)));
    assert!(rt; is_following(next_expected(surrogates, 0x9f), (1, 0x80, 0xbf)));
    assert!(rt; next_expected(surrogates, 0xa0).is_none());
    assert!(rt; next_expected(last, 0x7f).is_none());
    assert!(rt; matches!(next_expected(last, 0x80), Some(Expected::Character)));
    assert!(rt; matches!(next_expected(last, 0xbf), Some(Expected::Character)));
    assert!(rt; next_expected(last, 0xc0).is_none());
    Ok(())
}

#[test]
fn any_byte_may_come_in_a_blob(rt: HostRuntime) -> Result<(), Fail> {
    for byte in [0x00, 0x7f, 0x80, 0xff] {
        let next = next_expected(Expected::Any, byte);
        assert!(rt; matches!(next, Some(Expected::Any)), "after {byte}");
    }
    Ok(())
}
