// Ends of ranges are one byte each, in hexadecimal; an upper end of 0 stands for none. The expected
// lists were worked out by hand.
use hc_range::{Bytes, KeyBuf, LONGEST_KEY, NoMemory, Range, ReadLog, contains, is_below, meets};
use std::alloc::Global;
use std::test::Fail;

fn range(alloc: Global, ends: (u8, u8)) -> Result<Range, NoMemory> {
    let lo = Bytes::from_slice(alloc, &[ends.0])?;
    let hi = match ends.1 {
        0 => None,
        hi => Some(Bytes::from_slice(alloc, &[hi])?),
    };
    Ok(Range { lo, hi })
}

fn log_of(alloc: Global, parts: &[(u8, u8)]) -> Result<ReadLog, NoMemory> {
    let mut log = ReadLog::new(alloc);
    for ends in parts {
        log.add(&range(alloc, *ends)?)?;
    }
    Ok(log)
}

fn ends_of(alloc: Global, log: &ReadLog) -> Result<Vec<(u8, u8)>, NoMemory> {
    let mut all = Vec::new(alloc);
    for range in log.ranges() {
        let lo = range.lo.as_slice().first().copied().unwrap_or(0);
        let hi = match &range.hi {
            Some(hi) => hi.as_slice().first().copied().unwrap_or(0),
            None => 0,
        };
        all.push((lo, hi))?;
    }
    Ok(all)
}

#[test]
fn two_ranges_that_overlap_become_one(rt: HostRuntime) -> Result<(), Fail> {
    let mut log = log_of(rt.alloc(), &[(0x61, 0x63), (0x62, 0x64)])?;
    assert_eq!(rt;
        ends_of(rt.alloc(), &log)?.as_slice(),
        [(0x61, 0x64)].as_slice()
    );
    assert_eq!(rt; (log.covers(&[0x63]), log.covers(&[0x64])), (true, false));
    log.clear();
    assert_eq!(rt; log.ranges().len(), 0);
    Ok(())
}

// What is added one after another, and the ranges afterwards.
const UNIONS: [(&[(u8, u8)], &[(u8, u8)]); 7] = [
    (&[(0x30, 0x40), (0x10, 0x20), (0x20, 0x30)], &[(0x10, 0x40)]),
    (
        &[(0x31, 0x40), (0x10, 0x20), (0x21, 0x30)],
        &[(0x10, 0x20), (0x21, 0x30), (0x31, 0x40)],
    ),
    (
        &[(0x10, 0x40), (0x20, 0x30), (0x10, 0x20), (0x30, 0x40)],
        &[(0x10, 0x40)],
    ),
    (
        &[
            (0x10, 0x12),
            (0x20, 0x22),
            (0x30, 0x32),
            (0x40, 0x42),
            (0x11, 0x31),
        ],
        &[(0x10, 0x32), (0x40, 0x42)],
    ),
    (&[(0x20, 0x20), (0x30, 0x10)], &[]),
    (
        &[(0x10, 0x20), (0x40, 0x50), (0x60, 0x70), (0x48, 0)],
        &[(0x10, 0x20), (0x40, 0)],
    ),
    (&[(0x40, 0), (0x50, 0x60), (0x60, 0)], &[(0x40, 0)]),
];

#[test]
fn a_log_is_the_union_of_what_was_added(rt: HostRuntime) -> Result<(), Fail> {
    for (added, want) in UNIONS {
        let log = log_of(rt.alloc(), added)?;
        assert_eq!(rt;
            ends_of(rt.alloc(), &log)?.as_slice(),
            want,
            "after {added:?}"
        );
    }
    Ok(())
}

#[test]
fn logs_join_to_one_union(rt: HostRuntime) -> Result<(), Fail> {
    let mut log = log_of(rt.alloc(), &[(0x10, 0x20), (0x30, 0x40), (0x70, 0x80)])?;
    log.join(log_of(rt.alloc(), &[(0x05, 0x08), (0x20, 0x30), (0x50, 0x60)])?)?;
    let want = [(0x05, 0x08), (0x10, 0x40), (0x50, 0x60), (0x70, 0x80)];
    assert_eq!(rt; ends_of(rt.alloc(), &log)?.as_slice(), want.as_slice());
    Ok(())
}

// Two ranges, whether they meet, and whether a log of the first includes the second.
const PAIRS: [((u8, u8), (u8, u8), bool, bool); 8] = [
    ((0x61, 0x63), (0x62, 0x64), true, false),
    ((0x61, 0x63), (0x63, 0x64), false, false),
    ((0x61, 0x63), (0x60, 0x61), false, false),
    ((0x61, 0x64), (0x62, 0x64), true, true),
    ((0x61, 0x64), (0x62, 0x62), false, true),
    ((0x61, 0x61), (0x60, 0x62), false, false),
    ((0x61, 0), (0x62, 0), true, true),
    ((0x61, 0x64), (0x62, 0), true, false),
];

#[test]
fn ranges_meet_where_they_share_a_key(rt: HostRuntime) -> Result<(), Fail> {
    for (left, right, meet, include) in PAIRS {
        let log = log_of(rt.alloc(), &[left])?;
        let right = range(rt.alloc(), right)?;
        let found = (
            meets(&range(rt.alloc(), left)?, &right),
            log.includes(&right),
        );
        assert_eq!(rt; found, (meet, include), "{left:?} and {right:?}");
    }
    Ok(())
}

// Byte strings in ascending order.
const ASCENDING: [&[u8]; 7] = [
    &[],
    &[0x00],
    &[0x61],
    &[0x61, 0x00],
    &[0x61, 0xff],
    &[0x62],
    &[0x80],
];

#[test]
fn a_proper_prefix_comes_first(rt: HostRuntime) -> Result<(), Fail> {
    let middle = range(rt.alloc(), (0x61, 0x62))?;
    for (i, a) in ASCENDING.iter().enumerate() {
        for (j, b) in ASCENDING.iter().enumerate() {
            assert_eq!(rt; is_below(a, b), i < j, "{a:?} and {b:?}");
        }
        assert_eq!(rt; contains(&middle, a), 2 <= i && i < 5, "{a:?}");
    }
    Ok(())
}

#[test]
fn a_key_buffer_keeps_each_byte(rt: HostRuntime) {
    let key = KeyBuf::from_slice(&[0x61, 0x00]);
    assert_eq!(rt; key.as_slice(), [0x61, 0x00].as_slice());
    assert!(rt; key != KeyBuf::from_slice(&[0x61]), "a zero byte counts");
    let longest = KeyBuf::from_slice(&[0xff; LONGEST_KEY]);
    assert_eq!(rt; longest.as_slice().len(), 463);
}
