// Bytes that are no outputs, and how many bytes stand before the fault.
use super::read::{busy, fault};
use std::alloc::Global;
use std::process::Abort;
use std::test::Fail;

fn are_at_fault(rt: &impl Abort, alloc: Global, all: &[(&[u8], u64)]) {
    for each in all {
        assert_eq!(rt; fault(alloc, each.0), Some(each.1), "{:?}", each.0);
    }
}

// Each connection stands once, in order of the numbers, with at least one reply.
const CONNECTIONS: [(&[u8], u64); 8] = [
    (b"conn 0", 6),
    (b"conn 0\n", 7),
    (b"conn 00\n", 6),
    (b"conn 4294967296\n", 14),
    (b"conn 5000000000\n", 14),
    (b"conn 0\nconn 1\nok 0\n", 7),
    (b"conn 0\nrow 1\nconn 1\n", 13),
    (b"row 1\nok 1\n", 0),
];

// The number of a later connection is at fault where no greater one begins so.
const LATER_CONNECTIONS: [(&[u8], u64); 8] = [
    (b"conn 1\nok 0\nconn 0\n", 17),
    (b"conn 5\nok 0\nconn 5\n", 18),
    (b"conn 12\nok 0\nconn 11\n", 20),
    (b"conn 3000000000\nok 0\nconn 2", 26),
    (b"conn 4294967294\nok 0\nconn 3", 26),
    (b"conn 4294967294\nok 0\nconn 4294967294\n", 35),
    (b"conn 4294967295\nok 0\nconn 1\n", 23),
    (b"conn 4294967295\nok 0\ncommit 1\nconn 1\n", 30),
];

const NUMBERS: [(&[u8], u64); 8] = [
    (b"conn 0\nok 01\n", 11),
    (b"conn 0\nok -1\n", 10),
    (b"conn 0\nok 18446744073709551616\n", 29),
    (b"conn 0\nok 99999999999999999999\n", 29),
    (b"conn 0\nrow -0\n", 12),
    (b"conn 0\nrow 9223372036854775808\n", 29),
    (b"conn 0\nrow -9223372036854775809\n", 30),
    (b"conn 0\nerror 1 lex TooLarge at 4294967296\n", 40),
];

const ROWS: [(&[u8], u64); 6] = [
    (b"conn 0\nrow\n", 10),
    (b"conn 0\nrow \nok 1\n", 11),
    (b"conn 0\nrow 1 \nok 1\n", 12),
    (b"conn 0\nrow 1|\n", 13),
    (b"conn 0\nrow null\n", 11),
    (b"conn 0\nrow 1\nrolled", 15),
];

// Without a last quote, and with bytes that no text in UTF-8 has there.
const TEXTS: [(&[u8], u64); 7] = [
    (b"conn 0\nrow 'abc", 15),
    (b"conn 0\nrow 'a''", 15),
    (b"conn 0\nrow '\xff", 12),
    (b"conn 0\nrow '\xe0\x80", 13),
    (b"conn 0\nrow '\xed\xa0\x80", 13),
    (b"conn 0\nrow '\xc3'\n", 13),
    (b"conn 0\nrow '\xc3", 13),
];

const BLOBS: [(&[u8], u64); 4] = [
    (b"conn 0\nrow x'00'\n", 11),
    (b"conn 0\nrow X'0a'\n", 14),
    (b"conn 0\nrow X'0'\n", 14),
    (b"conn 0\nrow X'00\n", 15),
];

const ENDINGS: [(&[u8], u64); 5] = [
    (b"conn 0\nok 1", 11),
    (b"conn 0\nok 1\n\n", 12),
    (b"conn 0\nok 1\r\n", 11),
    (b"conn 0\ncommit 1\n", 7),
    (b"conn 0\nok 1\nrolled back 1\nrolled back 1\n", 28),
];

const REFUSALS: [(&[u8], u64); 6] = [
    (b"conn 0\nerror 7 \n", 14),
    (b"conn 0\nerror 1\n", 14),
    (b"conn 0\nerror 1 lex char at 0\n", 19),
    (b"conn 0\nerror 1 exists t\n", 22),
    (b"conn 0\nerror 1299 't''c'\n", 24),
    (b"conn 0\nerror 517 conn 1 txn 2\n", 29),
];

#[test]
fn a_connection_is_at_fault(rt: HostRuntime) {
    are_at_fault(&rt, rt.alloc(), &CONNECTIONS);
}

#[test]
fn connections_do_not_ascend(rt: HostRuntime) {
    are_at_fault(&rt, rt.alloc(), &LATER_CONNECTIONS);
}

#[test]
fn a_number_is_at_fault(rt: HostRuntime) {
    are_at_fault(&rt, rt.alloc(), &NUMBERS);
}

#[test]
fn a_row_is_at_fault(rt: HostRuntime) {
    are_at_fault(&rt, rt.alloc(), &ROWS);
}

#[test]
fn a_text_is_at_fault(rt: HostRuntime) {
    are_at_fault(&rt, rt.alloc(), &TEXTS);
}

#[test]
fn a_blob_is_at_fault(rt: HostRuntime) {
    are_at_fault(&rt, rt.alloc(), &BLOBS);
}

#[test]
fn an_ending_is_at_fault(rt: HostRuntime) {
    are_at_fault(&rt, rt.alloc(), &ENDINGS);
}

#[test]
fn a_refusal_is_at_fault(rt: HostRuntime) {
    are_at_fault(&rt, rt.alloc(), &REFUSALS);
}

// The fault is at the 927th digit.
#[test]
fn a_key_of_464_bytes_is_at_fault(rt: HostRuntime) -> Result<(), Fail> {
    let alloc = rt.alloc();
    let too_long = busy(alloc, 464)?;
    assert_eq!(rt; fault(alloc, too_long.as_slice()), Some(962));
    Ok(())
}
