//! Histories of two connections, call by call, with the answers worked out by hand from the steps of a commit in
//! `crates/hc_commit/README.md`. A call's ordinal is its place in the history, counted from 1. The ranges of
//! those of one connection are cut in a second run.
ghost use Rattle.std.specs.Prelude.{◌≡◌, []};

use crate::lane::{Do, step};
use crate::room::{Pair, turn_of};
use hc_core::{Core, CutDesk, Desk, ListDesk};
use hc_range::KeyBuf;
use std::alloc::Global;
use std::process::Abort;
use std::test::Fail;

// The connection, its call, and the answer.
type Line = (u32, Do, &'static str);

// They write two keys.
const TWO_KEYS: &[Line] = &[
    (1, Do::Begin, "began 0"),
    (1, Do::Write(0x61, 0x10), "written"),
    (1, Do::Write(0x62, 0x20), "written"),
    (1, Do::Commit, "commit 1"),
    (1, Do::Begin, "began 1"),
    (2, Do::Begin, "began 1"),
    (1, Do::Write(0x61, 0x11), "written"),
    (2, Do::Write(0x62, 0x21), "written"),
    (1, Do::Commit, "commit 2"),
    (2, Do::Commit, "commit 3"),
    (1, Do::Begin, "began 3"),
    (1, Do::Range(0x61, 0), "cells 61=11 62=21"),
    (1, Do::Rollback, "rolled back 3"),
];

// The second to commit has lost its update, and commits it with a new transaction.
const LOST_UPDATE: &[Line] = &[
    (1, Do::Begin, "began 0"),
    (2, Do::Begin, "began 0"),
    (1, Do::Write(0x61, 0x11), "written"),
    (2, Do::Write(0x61, 0x12), "written"),
    (1, Do::Commit, "commit 1"),
    (2, Do::Commit, "met conn 1 ord 5 key 61, rolled back 0"),
    (2, Do::Get(0x61), "not now"),
    (2, Do::Begin, "began 1"),
    (2, Do::Get(0x61), "11"),
    (2, Do::Write(0x61, 0x12), "written"),
    (2, Do::Commit, "commit 2"),
];

// What a transaction reads stays what it was. It has nothing to commit.
const SNAPSHOT: &[Line] = &[
    (2, Do::Begin, "began 0"),
    (2, Do::Get(0x61), "none"),
    (1, Do::Begin, "began 0"),
    (1, Do::Write(0x61, 0x11), "written"),
    (1, Do::Write(0x62, 0x21), "written"),
    (1, Do::Commit, "commit 1"),
    (2, Do::Get(0x61), "none"),
    (2, Do::Get(0x62), "none"),
    (2, Do::Range(0x61, 0), "cells"),
    (2, Do::Commit, "snapshot 0"),
];

// Each reads what the other one writes.
const WRITE_SKEW: &[Line] = &[
    (1, Do::Begin, "began 0"),
    (2, Do::Begin, "began 0"),
    (1, Do::Get(0x62), "none"),
    (2, Do::Get(0x61), "none"),
    (1, Do::Write(0x61, 0x11), "written"),
    (2, Do::Write(0x62, 0x21), "written"),
    (1, Do::Commit, "commit 1"),
    (2, Do::Commit, "met conn 1 ord 7 key 61, rolled back 0"),
    (2, Do::Begin, "began 1"),
    (2, Do::Get(0x62), "none"),
    (2, Do::Commit, "snapshot 1"),
];

// A key comes into a range that was read; then one comes above a range that was read.
const PHANTOM: &[Line] = &[
    (1, Do::Begin, "began 0"),
    (1, Do::Range(0x61, 0x70), "cells"),
    (2, Do::Begin, "began 0"),
    (2, Do::Write(0x65, 0x50), "written"),
    (2, Do::Commit, "commit 1"),
    (1, Do::Write(0x80, 0x01), "written"),
    (1, Do::Commit, "met conn 2 ord 5 key 65, rolled back 0"),
    (1, Do::Begin, "began 1"),
    (1, Do::Range(0x61, 0x65), "cells"),
    (2, Do::Begin, "began 1"),
    (2, Do::Write(0x65, 0x51), "written"),
    (2, Do::Commit, "commit 2"),
    (1, Do::Write(0x80, 0x01), "written"),
    (1, Do::Commit, "commit 3"),
];

// A write of the record that is there is no write, and neither is a tombstone where nothing is.
const UNCHANGED: &[Line] = &[
    (1, Do::Begin, "began 0"),
    (1, Do::Write(0x61, 0x10), "written"),
    (1, Do::Commit, "commit 1"),
    (2, Do::Begin, "began 1"),
    (2, Do::Write(0x61, 0x12), "written"),
    (1, Do::Begin, "began 1"),
    (1, Do::Write(0x61, 0x10), "written"),
    (1, Do::Write(0x70, 0x00), "written"),
    (1, Do::Commit, "snapshot 1"),
    (2, Do::Commit, "commit 2"),
];

// A key that was read before it was there comes and goes. The refusal names the last one that put it.
const TOMBSTONE: &[Line] = &[
    (1, Do::Begin, "began 0"),
    (1, Do::Get(0x65), "none"),
    (2, Do::Begin, "began 0"),
    (2, Do::Write(0x65, 0x50), "written"),
    (2, Do::Commit, "commit 1"),
    (2, Do::Begin, "began 1"),
    (2, Do::Write(0x65, 0x00), "written"),
    (2, Do::Commit, "commit 2"),
    (1, Do::Write(0x61, 0x11), "written"),
    (1, Do::Commit, "met conn 2 ord 8 key 65, rolled back 0"),
];

// Savepoints and a statement are undone; what was read stays read.
const SAVEPOINTS: &[Line] = &[
    (1, Do::Begin, "began 0"),
    (1, Do::Write(0x61, 0x11), "written"),
    (1, Do::Write(0x62, 0x20), "written"),
    (1, Do::Mark("a"), "marked"),
    (1, Do::Write(0x61, 0x12), "written"),
    (1, Do::Get(0x61), "12"),
    (1, Do::UndoTo("A"), "undone"),
    (1, Do::Get(0x61), "11"),
    (1, Do::Write(0x63, 0x30), "written"),
    (1, Do::UndoTo("a"), "undone"),
    (1, Do::Release("b"), "no such savepoint"),
    (1, Do::Release("a"), "released"),
    (1, Do::UndoTo("a"), "no such savepoint"),
    (1, Do::Start, "done"),
    (1, Do::Write(0x62, 0x00), "written"),
    (1, Do::Range(0x61, 0), "cells 61=11"),
    (1, Do::Undo, "done"),
    (1, Do::Range(0x61, 0), "cells 61=11 62=20"),
    (1, Do::Start, "done"),
    (1, Do::Write(0x6201, 0x22), "written"),
    (1, Do::Keep, "done"),
    (1, Do::Commit, "commit 1"),
    (1, Do::Begin, "began 1"),
    (1, Do::Range(0x61, 0x63), "cells 61=11 62=20 6201=22"),
    (1, Do::Write(0x62, 0x00), "written"),
    (1, Do::Range(0x61, 0x63), "cells 61=11 6201=22"),
    (1, Do::Commit, "commit 2"),
];

// The last cell is an own one, one of the snapshot, or one below those that own writes clear. Nothing below it is read: the
// other connection changes 62, and the commit succeeds; then it changes 65, and the commit is refused.
const LAST: &[Line] = &[
    (1, Do::Begin, "began 0"),
    (1, Do::Last(0x61, 0x70), "no cell"),
    (1, Do::Last(0x70, 0x61), "no cell"),
    (1, Do::Write(0x61, 0x10), "written"),
    (1, Do::Write(0x62, 0x20), "written"),
    (1, Do::Write(0x65, 0x50), "written"),
    (1, Do::Last(0x61, 0x70), "cells 65=50"),
    (1, Do::Last(0x61, 0x65), "cells 62=20"),
    (1, Do::Commit, "commit 1"),
    (1, Do::Begin, "began 1"),
    (1, Do::Last(0x61, 0), "cells 65=50"),
    (1, Do::Last(0x61, 0x62), "cells 61=10"),
    (1, Do::Last(0x66, 0), "no cell"),
    (1, Do::Rollback, "rolled back 1"),
    (1, Do::Begin, "began 1"),
    (2, Do::Begin, "began 1"),
    (2, Do::Write(0x62, 0x21), "written"),
    (2, Do::Commit, "commit 2"),
    (1, Do::Last(0x61, 0), "cells 65=50"),
    (1, Do::Write(0x66, 0x60), "written"),
    (1, Do::Last(0x61, 0), "cells 66=60"),
    (1, Do::Commit, "commit 3"),
    (1, Do::Begin, "began 3"),
    (1, Do::Write(0x66, 0x00), "written"),
    (1, Do::Last(0x61, 0), "cells 65=50"),
    (2, Do::Begin, "began 3"),
    (2, Do::Write(0x62, 0x22), "written"),
    (2, Do::Commit, "commit 4"),
    (1, Do::Commit, "commit 5"),
    (1, Do::Begin, "began 5"),
    (1, Do::Write(0x65, 0x00), "written"),
    (1, Do::Last(0x61, 0), "cells 62=22"),
    (1, Do::Write(0x65, 0x51), "written"),
    (1, Do::Last(0x61, 0), "cells 65=51"),
    (1, Do::Write(0x65, 0x00), "written"),
    (1, Do::Write(0x62, 0x00), "written"),
    (1, Do::Write(0x61, 0x00), "written"),
    (1, Do::Last(0x61, 0), "no cell"),
    (1, Do::Rollback, "rolled back 5"),
    (1, Do::Begin, "began 5"),
    (1, Do::Last(0x61, 0), "cells 65=50"),
    (2, Do::Begin, "began 5"),
    (2, Do::Write(0x65, 0x51), "written"),
    (2, Do::Commit, "commit 6"),
    (1, Do::Write(0x61, 0x11), "written"),
    (1, Do::Commit, "met conn 2 ord 44 key 65, rolled back 5"),
];

// A key is read twice while another connection changes it.
const READ_TWICE: &[Line] = &[
    (1, Do::Begin, "began 0"),
    (1, Do::Write(0x61, 0x10), "written"),
    (1, Do::Commit, "commit 1"),
    (1, Do::Begin, "began 1"),
    (1, Do::Write(0x61, 0x11), "written"),
    (1, Do::Commit, "commit 2"),
    (2, Do::Begin, "began 2"),
    (2, Do::Get(0x61), "11"),
    (1, Do::Begin, "began 2"),
    (1, Do::Write(0x61, 0x12), "written"),
    (1, Do::Commit, "commit 3"),
    (2, Do::Get(0x61), "11"),
    (2, Do::Range(0x61, 0x70), "cells 61=11"),
    (2, Do::Commit, "snapshot 2"),
];

// Both take the key after the last one. The second takes the next key with a new transaction.
const NEXT_KEY: &[Line] = &[
    (1, Do::Begin, "began 0"),
    (1, Do::Write(0x61, 0x10), "written"),
    (1, Do::Write(0x62, 0x20), "written"),
    (1, Do::Commit, "commit 1"),
    (1, Do::Begin, "began 1"),
    (2, Do::Begin, "began 1"),
    (1, Do::Last(0x61, 0x70), "cells 62=20"),
    (1, Do::Write(0x63, 0x30), "written"),
    (2, Do::Last(0x61, 0x70), "cells 62=20"),
    (2, Do::Write(0x63, 0x40), "written"),
    (1, Do::Commit, "commit 2"),
    (2, Do::Commit, "met conn 1 ord 11 key 63, rolled back 1"),
    (2, Do::Begin, "began 2"),
    (2, Do::Last(0x61, 0x70), "cells 63=30"),
    (2, Do::Write(0x64, 0x40), "written"),
    (2, Do::Commit, "commit 3"),
];

// A statement finds no next key and is refused, and its transaction goes on. What a statement that was undone has read stays
// read.
const REFUSED_STATEMENT: &[Line] = &[
    (1, Do::Begin, "began 0"),
    (1, Do::Write(0x61, 0x10), "written"),
    (1, Do::Write(0x6f, 0x70), "written"),
    (1, Do::Commit, "commit 1"),
    (1, Do::Begin, "began 1"),
    (1, Do::Start, "done"),
    (1, Do::Last(0x61, 0x70), "cells 6f=70"),
    (1, Do::Undo, "done"),
    (1, Do::Range(0x61, 0x70), "cells 61=10 6f=70"),
    (1, Do::Commit, "snapshot 1"),
    (1, Do::Begin, "began 1"),
    (1, Do::Start, "done"),
    (1, Do::Get(0x61), "10"),
    (1, Do::Write(0x62, 0x20), "written"),
    (1, Do::Undo, "done"),
    (1, Do::Get(0x62), "none"),
    (2, Do::Begin, "began 1"),
    (2, Do::Write(0x61, 0x11), "written"),
    (2, Do::Commit, "commit 2"),
    (1, Do::Write(0x50, 0x05), "written"),
    (1, Do::Commit, "met conn 2 ord 19 key 61, rolled back 1"),
];

// A key comes and goes in a range that was read before.
const TOMBSTONE_IN_A_RANGE: &[Line] = &[
    (1, Do::Begin, "began 0"),
    (1, Do::Write(0x61, 0x10), "written"),
    (1, Do::Commit, "commit 1"),
    (1, Do::Begin, "began 1"),
    (1, Do::Range(0x61, 0x70), "cells 61=10"),
    (1, Do::Write(0x61, 0x11), "written"),
    (2, Do::Begin, "began 1"),
    (2, Do::Write(0x65, 0x50), "written"),
    (2, Do::Commit, "commit 2"),
    (2, Do::Begin, "began 2"),
    (2, Do::Write(0x65, 0x00), "written"),
    (2, Do::Commit, "commit 3"),
    (1, Do::Commit, "met conn 2 ord 12 key 65, rolled back 1"),
];

// A name is there twice, and a savepoint is undone to twice. Those inside it are gone then. A statement inside a savepoint is
// undone, and one that was kept is undone with its savepoint.
const NAMES: &[Line] = &[
    (1, Do::Begin, "began 0"),
    (1, Do::Mark("a"), "marked"),
    (1, Do::Write(0x61, 0x10), "written"),
    (1, Do::Mark("A"), "marked"),
    (1, Do::Write(0x61, 0x11), "written"),
    (1, Do::Mark("b"), "marked"),
    (1, Do::Write(0x61, 0x12), "written"),
    (1, Do::UndoTo("a"), "undone"),
    (1, Do::Get(0x61), "10"),
    (1, Do::Release("b"), "no such savepoint"),
    (1, Do::Write(0x61, 0x13), "written"),
    (1, Do::UndoTo("a"), "undone"),
    (1, Do::Get(0x61), "10"),
    (1, Do::Start, "done"),
    (1, Do::Write(0x62, 0x20), "written"),
    (1, Do::Range(0x61, 0), "cells 61=10 62=20"),
    (1, Do::Undo, "done"),
    (1, Do::Range(0x61, 0), "cells 61=10"),
    (1, Do::Start, "done"),
    (1, Do::Write(0x62, 0x21), "written"),
    (1, Do::Keep, "done"),
    (1, Do::Release("a"), "released"),
    (1, Do::Get(0x62), "21"),
    (1, Do::UndoTo("a"), "undone"),
    (1, Do::Range(0x61, 0), "cells"),
    (1, Do::Write(0x63, 0x30), "written"),
    (1, Do::Release("A"), "released"),
    (1, Do::UndoTo("a"), "no such savepoint"),
    (1, Do::Get(0x63), "30"),
    (1, Do::Commit, "commit 1"),
];

// An entry takes 16 bytes, its key and its record, 480 at most, and its key 463. The ends of a range may be longer, and it is
// checked then.
const LONG: &[Line] = &[
    (1, Do::Begin, "began 0"),
    (1, Do::WriteLong(464, 0), "too big 480"),
    (1, Do::WriteLong(463, 2), "too big 481"),
    (1, Do::WriteLong(463, 1), "written"),
    (1, Do::WriteLong(1, 464), "too big 481"),
    (1, Do::WriteLong(1, 463), "written"),
    (1, Do::Commit, "commit 1"),
    (1, Do::Begin, "began 1"),
    (1, Do::RangeLong(464, 470), "cells"),
    (1, Do::RangeLong(470, 0), "cells"),
    (2, Do::Begin, "began 1"),
    (2, Do::Write(0x62, 0x20), "written"),
    (2, Do::Commit, "commit 2"),
    (1, Do::Write(0x60, 0x01), "written"),
    (1, Do::Commit, "met conn 2 ord 13 key 62, rolled back 1"),
];

const HISTORIES: &[&[Line]] = &[
    TWO_KEYS,
    LOST_UPDATE,
    SNAPSHOT,
    READ_TWICE,
    WRITE_SKEW,
    PHANTOM,
    UNCHANGED,
    NEXT_KEY,
    REFUSED_STATEMENT,
    TOMBSTONE,
    TOMBSTONE_IN_A_RANGE,
    SAVEPOINTS,
    NAMES,
    LAST,
    LONG,
];

// Plays a history of two connections of a machine, each by its desk.
fn play<R: Abort>(rt: &R, alloc: Global, history: &[Line]) -> Result<(), Fail> {
    let mut core = Core::new(alloc, 3)?;
    assert!(rt; core.takes_desk(1));
    let mut desk = ListDesk {
        core: &mut core,
        conn: 1,
    };
    let mut pair = Pair {
        one: None,
        two: None,
    };
    let mut ord: u32 = 1;
    for line in history {
        assert!(rt; ord <= 131071);
        let (next, text) = turn_of(alloc, &mut desk, pair, line.0 == 1, ord, line.1)?;
        pair = next;
        ord += 1;
        assert_eq!(rt; text.as_str(), line.2);
    }
    Ok(())
}

/// Plays a history of one connection by a desk.
pub fn play_alone<R: Abort, D: Desk>(
    rt: &R,
    alloc: Global,
    desk: &mut D,
    history: &[Line],
) -> Result<(), Fail>
    requires { D.account desk.old ≡ [] }
{
    let mut current = None;
    let mut ord: u32 = 1;
    for line in history {
        assert!(rt; ord <= 131071);
        let (next, text) = step(alloc, desk, current, ord, line.1)?;
        current = next;
        ord += 1;
        assert_eq!(rt; text.as_str(), line.2);
    }
    Ok(())
}

// Plays a history of one connection through a desk that cuts ranges.
fn play_cut<R: Abort>(rt: &R, alloc: Global, history: &[Line]) -> Result<(), Fail> {
    let mut core = Core::new(alloc, 1)?;
    assert!(rt; core.takes_desk(0));
    let list = ListDesk {
        core: &mut core,
        conn: 0,
    };
    let mut desk = CutDesk::new(alloc, list, &cuts())?;
    play_alone(rt, alloc, &mut desk, history)
}

/// Keys at which ranges are cut.
pub fn cuts() -> [KeyBuf; 4] {
    [
        KeyBuf::from_slice(&[0x62]),
        KeyBuf::from_slice(&[0x62, 0x01]),
        KeyBuf::from_slice(&[0x64]),
        KeyBuf::from_slice(&[0x66]),
    ]
}

#[test]
fn transactions_of_two_connections_meet(rt: HostRuntime) -> Result<(), Fail> {
    for history in HISTORIES {
        play(&rt, rt.alloc(), history)?;
    }
    Ok(())
}

// Ranges are read and checked in parts.
#[test]
fn a_transaction_goes_on_over_ranges_that_are_cut(rt: HostRuntime) -> Result<(), Fail> {
    for history in [SAVEPOINTS, NAMES] {
        play_cut(&rt, rt.alloc(), history)?;
    }
    Ok(())
}
