// What is read of outputs, which were written out by hand.
use super::read::{begins_with_value, busy, connections, is_output};
use hc_reply::read;
use hc_value::{Blob, NoMemory, Str, Value};
use std::alloc::Global;
use std::process::Abort;
use std::test::Fail;

const OUTPUTS: [&[u8]; 9] = [
    b"",
    b"conn 0\nok 18446744073709551615\n",
    b"conn 0\nrow -9223372036854775808\nok 1\n",
    b"conn 0\nrow 'a\nok 1\n'\nok 1\n",
    b"conn 0\nrow 1\nerror 1 overflow\ncommit 0\n",
    b"conn 0\nerror 1 no item -5\n",
    b"conn 0\nerror 517 conn 1 txn 1 key X''\n",
    b"conn 4294967294\nok 0\nsnapshot 0\nok 1\nconn 4294967295\nok 0\n",
    b"conn 0\nok 1\ncommit 1\n\
        row 0|NULL|-9223372036854775808\nrow 9223372036854775807\nok 2\n\
        conn 64\nerror 1555 'it''s' ''''''\nrolled back 0\n\
        ok 18446744073709551615\nsnapshot 4294967295\n",
];

#[test]
fn outputs_are_read(rt: HostRuntime) -> Result<(), Fail> {
    are_outputs(&rt, rt.alloc(), &OUTPUTS)
}

fn are_outputs(rt: &impl Abort, alloc: Global, all: &[&[u8]]) -> Result<(), Fail> {
    for bytes in all {
        assert!(rt; is_output(alloc, bytes)?, "{bytes:?}");
    }
    Ok(())
}

#[test]
fn a_key_of_463_bytes_is_read(rt: HostRuntime) -> Result<(), Fail> {
    let alloc = rt.alloc();
    let bytes = busy(alloc, 463)?;
    assert!(rt; is_output(alloc, bytes.as_slice())?);
    Ok(())
}

const CONNECTIONS: [(&[u8], usize); 4] = [
    (b"", 0),
    (b"conn 7\nok 0\n", 1),
    (b"conn 0\nrow 'conn 1\nok 0\n'\nok 1\n", 1),
    (b"conn 0\nok 1\nok 2\nconn 1\nok 0\nconn 12\nok 0\n", 3),
];

#[test]
fn so_many_connections_are_read(rt: HostRuntime) {
    have_connections(&rt, rt.alloc(), &CONNECTIONS);
}

fn have_connections(rt: &impl Abort, alloc: Global, all: &[(&[u8], usize)]) {
    for each in all {
        assert_eq!(rt;
            connections(read(alloc, each.0)),
            Some(each.1),
            "{:?}",
            each.0
        );
    }
}

const INTEGERS: [(&[u8], i64); 5] = [
    (b"conn 0\nrow 0|NULL\nok 1\n", 0),
    (b"conn 0\nrow -1\nok 1\n", -1),
    (b"conn 0\nrow 10|'a'\nok 1\n", 10),
    (b"conn 0\nrow 9223372036854775807\nok 1\n", i64::MAX),
    (b"conn 0\nrow -9223372036854775808\nok 1\n", i64::MIN),
];

#[test]
fn integers_are_read(rt: HostRuntime) {
    begin_with_integers(&rt, rt.alloc(), &INTEGERS);
}

fn begin_with_integers(rt: &impl Abort, alloc: Global, all: &[(&[u8], i64)]) {
    for each in all {
        begins_with(rt, alloc, each.0, &Value::Int(each.1));
    }
}

fn begins_with(rt: &impl Abort, alloc: Global, bytes: &[u8], value: &Value) {
    assert!(rt; begins_with_value(read(alloc, bytes), value), "{bytes:?}");
}

#[test]
fn null_is_read(rt: HostRuntime) {
    begins_with(&rt, rt.alloc(), b"conn 0\nrow NULL|1\nok 1\n", &Value::Null);
}

const TEXTS: [(&[u8], &str); 4] = [
    (b"conn 0\nrow ''\nok 1\n", ""),
    (b"conn 0\nrow 'a\nok 1\n'\nok 1\n", "a\nok 1\n"),
    (b"conn 0\nrow 'it''s | \xe2\x82\xac'\nok 1\n", "it's | €"),
    (b"conn 0\nrow ''''''|1\nok 1\n", "''"),
];

#[test]
fn texts_are_read(rt: HostRuntime) -> Result<(), Fail> {
    begin_with_texts(&rt, rt.alloc(), &TEXTS)
}

fn begin_with_texts(rt: &impl Abort, alloc: Global, all: &[(&[u8], &str)]) -> Result<(), Fail> {
    for each in all {
        begins_with_text(rt, alloc, each.0, each.1)?;
    }
    Ok(())
}

fn begins_with_text(
    rt: &impl Abort,
    alloc: Global,
    bytes: &[u8],
    text: &str,
) -> Result<(), NoMemory> {
    let text = Value::Text(Str::from_text(alloc, text)?);
    begins_with(rt, alloc, bytes, &text);
    Ok(())
}

const BLOBS: [(&[u8], &[u8]); 2] = [
    (b"conn 0\nrow X''\nok 1\n", b""),
    (
        b"conn 0\nrow X'009ABCDE6627'|2\nok 1\n",
        b"\x00\x9a\xbc\xdef'",
    ),
];

#[test]
fn blobs_are_read(rt: HostRuntime) -> Result<(), Fail> {
    begin_with_blobs(&rt, rt.alloc(), &BLOBS)
}

fn begin_with_blobs(rt: &impl Abort, alloc: Global, all: &[(&[u8], &[u8])]) -> Result<(), Fail> {
    for each in all {
        begins_with_blob(rt, alloc, each.0, each.1)?;
    }
    Ok(())
}

fn begins_with_blob(
    rt: &impl Abort,
    alloc: Global,
    bytes: &[u8],
    blob: &[u8],
) -> Result<(), NoMemory> {
    let blob = Value::Blob(Blob::from_slice(alloc, blob)?);
    begins_with(rt, alloc, bytes, &blob);
    Ok(())
}
