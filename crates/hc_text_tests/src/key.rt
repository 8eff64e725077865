// Expected bytes were written out by hand from the format that `specs/Keys.antt` of `hc_key` states.
use crate::made::{blob, ladder, text};
use hc_key::{KeyFault, key_len, key_of, prefix_range, values_of};
use hc_range::{Bytes, contains, is_below};
use hc_value::{Value, cmp};
use std::alloc::Global;
use std::test::Fail;

#[test]
fn keys_have_these_bytes(rt: HostRuntime) -> Result<(), Fail> {
    let alloc = rt.alloc();
    let key = key_of(alloc, 1, &[Value::Int(-1)])?;
    assert_eq!(rt;
        key.as_slice(),
        b"\0\0\0\x01\x02\x7f\xff\xff\xff\xff\xff\xff\xff".as_slice()
    );
    let key = key_of(alloc, 2, &[text(alloc, "a")?, Value::Null])?;
    assert_eq!(rt; key.as_slice(), b"\0\0\0\x02\x03a\0\0\x01".as_slice());
    let key = key_of(alloc, 3, &[blob(alloc, &[0])?])?;
    assert_eq!(rt; key.as_slice(), b"\0\0\0\x03\x04\0\xff\0\0".as_slice());
    Ok(())
}

#[test]
fn a_key_is_as_long_as_is_told(rt: HostRuntime) -> Result<(), Fail> {
    let alloc = rt.alloc();
    assert_eq!(rt; key_len(&[]), 4);
    assert_eq!(rt; key_len(&[Value::Null, Value::Int(-1)]), 14);
    assert_eq!(rt; key_len(&[text(alloc, "a\0b")?, blob(alloc, &[0, 0])?]), 18);
    Ok(())
}

#[test]
fn a_prefix_goes_up_to_ff(rt: HostRuntime) -> Result<(), Fail> {
    let alloc = rt.alloc();
    let range = prefix_range(alloc, 1, &[])?;
    assert_eq!(rt; range.lo.as_slice(), b"\0\0\0\x01".as_slice());
    assert_eq!(rt; contains(&range, b"\0\0\0\x01\xff"), false);
    let within = key_of(alloc, 1, &[Value::Null])?;
    assert_eq!(rt; contains(&range, within.as_slice()), true);
    let other = key_of(alloc, 2, &[])?;
    assert_eq!(rt; contains(&range, other.as_slice()), false);
    let range = prefix_range(alloc, 1, &[Value::Null])?;
    let within = key_of(alloc, 1, &[Value::Null, Value::Int(7)])?;
    assert_eq!(rt; contains(&range, within.as_slice()), true);
    let other = key_of(alloc, 1, &[Value::Int(7)])?;
    assert_eq!(rt; contains(&range, other.as_slice()), false);
    Ok(())
}

#[test]
fn keys_of_neighbours_are_in_order(rt: HostRuntime) -> Result<(), Fail> {
    let alloc = rt.alloc();
    let mut before: Option<Bytes> = None;
    let values = ladder(alloc)?;
    for v in &values {
        let key = key_of(alloc, 7, std::slice::from_ref(v))?;
        if let Some(before) = before {
            assert!(rt; is_below(before.as_slice(), key.as_slice()), "{v:?}");
        }
        before = Some(key);
    }
    for (i, a) in values.iter().enumerate() {
        for (j, b) in values.iter().enumerate() {
            assert_eq!(rt; cmp(a, b), i.cmp(&j));
        }
    }
    Ok(())
}

// Where the bytes are at fault; nothing where they are a key.
fn fault(alloc: Global, key: &[u8]) -> Option<u32> {
    if key.len() > 1000 {
        return None;
    }
    match values_of(alloc, key) {
        Err(KeyFault::Bad { at }) => Some(at),
        _ => None,
    }
}

// Bytes that are no keys, and where.
const FAULTS: [(&[u8], u32); 24] = [
    (b"", 0),
    (b"\0\0\0", 3),
    (b"\0\0\0\x01\x05", 4),
    (b"\0\0\0\x01\0", 4),
    (b"\0\0\0\x01\x01\xff", 5),
    (b"\0\0\0\x01\x02\x80\0", 7),
    (b"\0\0\0\x01\x03", 5),
    (b"\0\0\0\x01\x03a\0", 7),
    (b"\0\0\0\x01\x03a\0\x01", 7),
    (b"\0\0\0\x01\x03\x80", 5),
    (b"\0\0\0\x01\x03\xc1\x80", 5),
    (b"\0\0\0\x01\x03\xc3\0", 6),
    (b"\0\0\0\x01\x03\xc3\xc3", 6),
    (b"\0\0\0\x01\x03\xe0\x80", 6),
    (b"\0\0\0\x01\x03\xed\xa0", 6),
    (b"\0\0\0\x01\x03\xef\xbf\0\0", 7),
    (b"\0\0\0\x01\x03\xf0\x8f", 6),
    (b"\0\0\0\x01\x03\xf4\x90", 6),
    (b"\0\0\0\x01\x03\xf5", 5),
    (b"\0\0\0\x01\x03\xf1\x80\x80", 8),
    (b"\0\0\0\x01\x03\xf1\x80\x80a", 8),
    (b"\0\0\0\x01\x04\xff", 6),
    (b"\0\0\0\x01\x04\0\xfe", 6),
    (b"\0\0\0\x01\x04\0\0\x05", 7),
];

#[test]
fn a_fault_is_where_no_key_continues(rt: HostRuntime) {
    for (bytes, at) in FAULTS {
        assert_eq!(rt; fault(rt.alloc(), bytes), Some(at), "{bytes:?}");
    }
}

#[test]
fn what_was_written_is_read(rt: HostRuntime) -> Result<(), Fail> {
    let alloc = rt.alloc();
    let mut values = ladder(alloc)?;
    values.push(text(
        alloc,
        "\u{80}\u{7ff}\u{800}\u{d7ff}\u{e000}\u{ffff}\u{10000}\u{10ffff}",
    )?)?;
    let key = key_of(alloc, u32::MAX, values.as_slice())?;
    assert!(rt; key.as_slice().len() < 1000);
    if key.as_slice().len() < 1000 {
        let (tree, found) = values_of(alloc, key.as_slice())?;
        assert_eq!(rt; tree, u32::MAX);
        assert_eq!(rt; found.as_slice(), values.as_slice());
    }
    Ok(())
}
