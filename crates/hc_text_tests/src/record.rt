// Records were worked out by hand from "Record Format" of https://www.sqlite.org/fileformat2.html, and faults
// from the rule of `hc_record`. The script tests/records.sh has SQLite write the integers of `INTEGERS` and
// the lists of `ROWS`, and finds the same bytes.
ghost use Rattle.std.specs.Prelude.{◌<◌, ◌^◌, length};

use crate::made::{blob, text};
use hc_record::{RecordFault, RecordKind, decode, encode, encoding_len, fits, integer_at};
use hc_value::{NoMemory, Value};
use std::alloc::Global;
use std::test::Fail;

// The ends of each serial type, with their neighbours: an integer and the record of it alone.
const INTEGERS: [(i64, &[u8]); 30] = [
    (0, b"\x02\x08"),
    (1, b"\x02\x09"),
    (2, b"\x02\x01\x02"),
    (-1, b"\x02\x01\xff"),
    (126, b"\x02\x01\x7e"),
    (127, b"\x02\x01\x7f"),
    (128, b"\x02\x02\x00\x80"),
    (-127, b"\x02\x01\x81"),
    (-128, b"\x02\x01\x80"),
    (-129, b"\x02\x02\xff\x7f"),
    (32767, b"\x02\x02\x7f\xff"),
    (32768, b"\x02\x03\x00\x80\x00"),
    (-32768, b"\x02\x02\x80\x00"),
    (-32769, b"\x02\x03\xff\x7f\xff"),
    (8388607, b"\x02\x03\x7f\xff\xff"),
    (8388608, b"\x02\x04\x00\x80\x00\x00"),
    (-8388608, b"\x02\x03\x80\x00\x00"),
    (-8388609, b"\x02\x04\xff\x7f\xff\xff"),
    (2147483647, b"\x02\x04\x7f\xff\xff\xff"),
    (2147483648, b"\x02\x05\x00\x00\x80\x00\x00\x00"),
    (-2147483648, b"\x02\x04\x80\x00\x00\x00"),
    (-2147483649, b"\x02\x05\xff\xff\x7f\xff\xff\xff"),
    (140737488355327, b"\x02\x05\x7f\xff\xff\xff\xff\xff"),
    (140737488355328, b"\x02\x06\x00\x00\x80\x00\x00\x00\x00\x00"),
    (-140737488355328, b"\x02\x05\x80\x00\x00\x00\x00\x00"),
    (
        -140737488355329,
        b"\x02\x06\xff\xff\x7f\xff\xff\xff\xff\xff",
    ),
    (
        9223372036854775806,
        b"\x02\x06\x7f\xff\xff\xff\xff\xff\xff\xfe",
    ),
    (
        9223372036854775807,
        b"\x02\x06\x7f\xff\xff\xff\xff\xff\xff\xff",
    ),
    (
        -9223372036854775807,
        b"\x02\x06\x80\x00\x00\x00\x00\x00\x00\x01",
    ),
    (
        -9223372036854775808,
        b"\x02\x06\x80\x00\x00\x00\x00\x00\x00\x00",
    ),
];

// Whether the values have this record, and it is read as them again.
fn agree(alloc: Global, values: &[Value], bytes: &[u8]) -> Result<bool, NoMemory>
    requires { length bytes.now < 2 ^ 32 }
{
    if !fits(values) || encode(alloc, values)?.as_slice() != bytes {
        return Ok(false);
    }
    if encoding_len(values) != bytes.len() as u64 {
        return Ok(false);
    }
    match decode(alloc, bytes) {
        Ok(read) => Ok(read.as_slice() == values),
        Err(_) => Ok(false),
    }
}

// Where bytes are at fault, and how; none where they are a record or memory is short.
fn fault(alloc: Global, bytes: &[u8]) -> Option<(u32, RecordKind)>
    requires { length bytes.now < 2 ^ 32 }
{
    match decode(alloc, bytes) {
        Err(RecordFault::Bad { at, kind }) => Some((at, kind)),
        _ => None,
    }
}

#[test]
fn each_integer_has_its_type(rt: HostRuntime) -> Result<(), Fail> {
    for (n, record) in INTEGERS {
        assert!(rt; record.len() < 100);
        assert!(rt; agree(rt.alloc(), &[Value::Int(n)], record)?, "{n}");
    }
    Ok(())
}

#[test]
fn lists_have_their_records(rt: HostRuntime) -> Result<(), Fail> {
    let alloc = rt.alloc();
    assert!(rt; agree(alloc, &[], b"\x01")?);
    // ROWS: each list as SQL has it, and its record.
    // NULL, 1, 300, 'ab'
    let row = [
        Value::Null,
        Value::Int(1),
        Value::Int(300),
        text(alloc, "ab")?,
    ];
    assert!(rt; agree(alloc, &row, b"\x05\x00\x09\x02\x11\x01\x2cab")?);
    // 5
    assert!(rt; agree(alloc, &[Value::Int(5)], b"\x02\x01\x05")?);
    // '', x'', 'a', x'61'
    let row = [
        text(alloc, "")?,
        blob(alloc, b"")?,
        text(alloc, "a")?,
        blob(alloc, b"a")?,
    ];
    assert!(rt; agree(alloc, &row, b"\x05\x0d\x0c\x0f\x0eaa")?);
    // 'ä€', x'00ff80'
    let row = [text(alloc, "ä€")?, blob(alloc, b"\x00\xff\x80")?];
    assert!(rt; agree(alloc, &row, b"\x03\x17\x12\xc3\xa4\xe2\x82\xac\x00\xff\x80")?);
    // x'000102030405060708090a0b0c0d0e0f101112131415161718191a1b1c1d1e1f202122232425262728292a2b2c2d2e2f303132333435363738', 'it''s'
    let row = [
        blob(
            alloc,
            b"\x00\x01\x02\x03\x04\x05\x06\x07\x08\x09\x0a\x0b\x0c\x0d\x0e\x0f\x10\x11\x12\x13\x14\x15\x16\x17\x18\x19\x1a\x1b\x1c\x1d\x1e\x1f\x20\x21\x22\x23\x24\x25\x26\x27\x28\x29\x2a\x2b\x2c\x2d\x2e\x2f\x30\x31\x32\x33\x34\x35\x36\x37\x38",
        )?,
        text(alloc, "it's")?,
    ];
    assert!(rt;
        agree(
            alloc,
            &row,
            b"\x03\x7e\x15\x00\x01\x02\x03\x04\x05\x06\x07\x08\x09\x0a\x0b\x0c\x0d\x0e\x0f\x10\x11\x12\x13\x14\x15\x16\x17\x18\x19\x1a\x1b\x1c\x1d\x1e\x1f\x20\x21\x22\x23\x24\x25\x26\x27\x28\x29\x2a\x2b\x2c\x2d\x2e\x2f\x30\x31\x32\x33\x34\x35\x36\x37\x38it's"
        )?
    );
    // x'000102030405060708090a0b0c0d0e0f101112131415161718191a1b1c1d1e1f202122232425262728292a2b2c2d2e2f30313233343536373839'
    let row = [blob(
        alloc,
        b"\x00\x01\x02\x03\x04\x05\x06\x07\x08\x09\x0a\x0b\x0c\x0d\x0e\x0f\x10\x11\x12\x13\x14\x15\x16\x17\x18\x19\x1a\x1b\x1c\x1d\x1e\x1f\x20\x21\x22\x23\x24\x25\x26\x27\x28\x29\x2a\x2b\x2c\x2d\x2e\x2f\x30\x31\x32\x33\x34\x35\x36\x37\x38\x39",
    )?];
    assert!(rt;
        agree(
            alloc,
            &row,
            b"\x03\x81\x00\x00\x01\x02\x03\x04\x05\x06\x07\x08\x09\x0a\x0b\x0c\x0d\x0e\x0f\x10\x11\x12\x13\x14\x15\x16\x17\x18\x19\x1a\x1b\x1c\x1d\x1e\x1f\x20\x21\x22\x23\x24\x25\x26\x27\x28\x29\x2a\x2b\x2c\x2d\x2e\x2f\x30\x31\x32\x33\x34\x35\x36\x37\x38\x39"
        )?
    );
    Ok(())
}

// A header of 126 types is 127 bytes long, and one of 127 types is 129: its length takes two bytes then.
#[test]
fn a_header_counts_its_length(rt: HostRuntime) -> Result<(), Fail> {
    let alloc = rt.alloc();
    let mut values = Vec::new(alloc);
    let mut types = Vec::new(alloc);
    for _ in 0..126u32 {
        values.push(Value::Null)?;
        types.push(0u8)?;
    }
    let mut record = b"\x7f".to_vec(alloc)?;
    record.extend_from_slice(types.as_slice())?;
    assert!(rt; record.len() < 1000);
    assert!(rt; agree(alloc, values.as_slice(), record.as_slice())?);
    values.push(Value::Null)?;
    let mut record = b"\x81\x01\x00".to_vec(alloc)?;
    record.extend_from_slice(types.as_slice())?;
    assert!(rt; record.len() < 1000);
    assert!(rt; agree(alloc, values.as_slice(), record.as_slice())?);
    let mut record = b"\x81\x00".to_vec(alloc)?;
    record.extend_from_slice(types.as_slice())?;
    assert!(rt; record.len() < 1000);
    assert_eq!(rt;
        fault(alloc, record.as_slice()),
        Some((0, RecordKind::Spelling))
    );
    Ok(())
}

// Bytes that are no records, where they are at fault, and how.
const FAULTS: [(&[u8], u32, RecordKind); 25] = [
    (b"", 0, RecordKind::Short),
    (b"\x80", 1, RecordKind::Short),
    (b"\x02\x01", 2, RecordKind::Short),
    (b"\x03\x01", 2, RecordKind::Short),
    (b"\x02\x80\x01", 2, RecordKind::Short),
    (b"\x02\x11\xff", 3, RecordKind::Short),
    (
        b"\xff\xff\xff\xff\xff\xff\xff\xff\xff",
        9,
        RecordKind::Short,
    ),
    (b"\x00", 0, RecordKind::Spelling),
    (b"\x80\x01", 0, RecordKind::Spelling),
    (b"\x81\x00\x00", 0, RecordKind::Spelling),
    (b"\x03\x80\x07", 1, RecordKind::Spelling),
    (b"\x02\x01\x01", 1, RecordKind::Spelling),
    (b"\x02\x01\x00", 1, RecordKind::Spelling),
    (b"\x02\x02\x00\x7f", 1, RecordKind::Spelling),
    (b"\x03\x01\x0f\x01\xff", 1, RecordKind::Spelling),
    (b"\x02\x07", 1, RecordKind::BadType),
    (b"\x05\x07", 1, RecordKind::BadType),
    (b"\x03\x01\x07\x01", 2, RecordKind::BadType),
    (b"\x02\x0a", 1, RecordKind::BadType),
    (b"\x02\x0b", 1, RecordKind::BadType),
    (b"\x02\x0f\xff", 2, RecordKind::Utf8),
    (b"\x03\x0f\x01\xff\x01", 3, RecordKind::Utf8),
    (b"\x02\x0f\xc3", 2, RecordKind::Utf8),
    (b"\x01\x00", 1, RecordKind::Tail),
    (b"\x02\x01\x05\x00", 3, RecordKind::Tail),
];

#[test]
fn each_fault_has_its_kind_and_place(rt: HostRuntime) {
    for (bytes, at, kind) in FAULTS {
        assert!(rt; bytes.len() < 100);
        assert_eq!(rt; fault(rt.alloc(), bytes), Some((at, kind)), "{bytes:?}");
    }
}

#[test]
fn an_integer_is_read_where_it_is(rt: HostRuntime) -> Result<(), Fail> {
    let bytes = b"\x06\x00\x11\x02\x09\x06ab\x01\x2c\x80\0\0\0\0\0\0\0";
    let expected = [None, None, Some(300), Some(1), Some(i64::MIN), None];
    for (place, n) in expected.iter().enumerate() {
        assert_eq!(rt; integer_at(bytes, place), *n);
    }
    Ok(())
}
