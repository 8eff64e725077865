//! Runs by the calls of desks: of one connection, through `ListDesk` and through `CutDesk` over it, and of several, whose desks
//! take turns at one machine. Numbers are keys and records as in the runs by events. The answers were worked out by hand from the table of calls in
//! `crates/hc_core/README.md`.
ghost use Rattle.std.specs.Prelude.{◌≡◌, []};
ghost use Rattle.hc_test_desks.specs.Turns.{AreGuarded};

use crate::machine::{bytes, end, push_bytes};
use hc_core::{Core, CutDesk, Desk, ListDesk, Next, NoMemory, Part, Write};
use hc_range::{KeyBuf, Range};
use hc_test_desks::{Answer, Call, Guard, make_call, new_guards, take_turn};
use sqlite_items::Items;
use std::alloc::Global;
use std::process::Abort;
use std::test::Fail;

#[derive(Debug, Clone, Copy)]
enum Do {
    Begin,
    Read(u32, u32),
    ReadFrom(u32, u32, u32),
    Last(u32, u32),
    // The ordinal, and keys with their records; a record of 0 is a tombstone.
    Reserve(u32, &'static [(u32, u32)]),
    Put(usize),
    Propose,
    Check(u32, u32),
    CheckFrom(u32, u32, u32),
    Decide,
    Unput(u32),
    End,
}

fn range(alloc: Global, from: u32, upto: u32) -> Result<Range, NoMemory> {
    Ok(Range {
        lo: bytes(alloc, from)?,
        hi: end(alloc, upto)?,
    })
}

fn key(alloc: Global, number: u32) -> Result<KeyBuf, NoMemory> {
    let bytes = bytes(alloc, number)?;
    Ok(KeyBuf::from_slice(bytes.as_slice()))
}

fn writes(alloc: Global, all: &[(u32, u32)]) -> Result<Vec<Write>, NoMemory> {
    let mut writes = Vec::new(alloc);
    for (key, rec) in all {
        let key = bytes(alloc, *key)?;
        let rec = end(alloc, *rec)?;
        writes.push(Write { key, rec })?;
    }
    Ok(writes)
}

fn call(alloc: Global, what: Do) -> Result<Call, NoMemory> {
    Ok(match what {
        Do::Begin => Call::Begin,
        Do::Read(from, upto) => Call::Read(range(alloc, from, upto)?),
        Do::ReadFrom(from, lo, upto) => Call::ReadFrom(
            bytes(alloc, from)?,
            range(alloc, lo, upto)?,
        ),
        Do::Last(from, upto) => Call::Last(range(alloc, from, upto)?),
        Do::Reserve(ord, all) => Call::Reserve(ord, writes(alloc, all)?),
        Do::Put(place) => Call::Put(place),
        Do::Propose => Call::Propose,
        Do::Check(from, upto) => Call::Check(range(alloc, from, upto)?),
        Do::CheckFrom(from, lo, upto) => Call::CheckFrom(
            bytes(alloc, from)?,
            range(alloc, lo, upto)?,
        ),
        Do::Decide => Call::Decide,
        Do::Unput(key) => Call::Unput(bytes(alloc, key)?),
        Do::End => Call::End,
    })
}

fn text_of(alloc: Global, answer: &Answer, part: &Part) -> Result<String, Fail> {
    let mut text = match answer {
        Answer::NotNow => format!(in alloc; "not now")?,
        Answer::Done => format!(in alloc; "done")?,
        Answer::Began(snapshot) => format!(in alloc; "began {}", snapshot.0)?,
        Answer::Read(Next::End) => format!(in alloc; "cells")?,
        Answer::Read(Next::More(key)) => {
            let mut text = format!(in alloc; "more ")?;
            push_bytes(alloc, &mut text, key.as_slice())?;
            text
        }
        Answer::Last(some) => format!(in alloc; "last {some}")?,
        Answer::NoRoom(fault) => format!(in alloc; "no room: {fault}")?,
        Answer::Met(met) => {
            let mut text = format!(in alloc; "met {} of {}.{} at ", met.tid.0, met.conn, met.ord)?;
            push_bytes(alloc, &mut text, met.key.as_slice())?;
            text
        }
        Answer::Proposed(number) => format!(in alloc; "proposed {}", number.0)?,
        Answer::Checked(Next::End) => format!(in alloc; "checked")?,
        Answer::Checked(Next::More(key)) => {
            let mut text = format!(in alloc; "checked to ")?;
            push_bytes(alloc, &mut text, key.as_slice())?;
            text
        }
        Answer::Decided(number) => format!(in alloc; "decided {}", number.0)?,
        Answer::Lost(lost) => format!(in alloc; "lost {} to {}", lost.cid.0, lost.other.0)?,
    };
    for cell in part.cells.as_slice() {
        text.push_str(" ")?;
        push_bytes(alloc, &mut text, cell.key.as_slice())?;
        text.push_str("=")?;
        push_bytes(alloc, &mut text, cell.rec.as_slice())?;
    }
    Ok(text)
}

// The happy path of each call.
const ONE_COMMIT: &[(Do, &str)] = &[
    (Do::Put(0), "not now"),
    (Do::Begin, "began 0"),
    (Do::Begin, "not now"),
    (Do::Read(0x61, 0x63), "cells"),
    (Do::Last(0x61, 0), "last false"),
    (Do::Reserve(1, &[(0x61, 1), (0x62, 2)]), "done"),
    (Do::Read(0x61, 0x63), "not now"),
    (Do::Put(0), "done"),
    (Do::Propose, "not now"),
    (Do::End, "not now"),
    (Do::Put(1), "done"),
    (Do::Propose, "proposed 1"),
    (Do::Decide, "not now"),
    (Do::Check(0x61, 0), "checked"),
    (Do::Decide, "decided 1"),
    (Do::Unput(0x61), "not now"),
    (Do::End, "done"),
    (Do::Begin, "began 1"),
    (Do::Read(0x60, 0), "cells 61=01 62=02"),
    (Do::Last(0x61, 0x62), "last true 61=01"),
    (Do::End, "done"),
];

// Puts come in any order of keys, and a key is put again after it was taken out.
const PUTS_IN_ANY_ORDER: &[(Do, &str)] = &[
    (Do::Begin, "began 0"),
    (
        Do::Reserve(1, &[(0x61, 1), (0x62, 2), (0x63, 3), (0x64, 4)]),
        "done",
    ),
    (Do::Put(2), "done"),
    (Do::Put(0), "done"),
    (Do::Put(2), "not now"),
    (Do::Put(3), "done"),
    (Do::Unput(0x61), "done"),
    (Do::Unput(0x61), "not now"),
    (Do::Put(1), "done"),
    (Do::Propose, "not now"),
    (Do::Put(0), "done"),
    (Do::Unput(0x63), "done"),
    (Do::Put(2), "done"),
    (Do::Propose, "proposed 1"),
    (Do::Decide, "decided 1"),
    (Do::End, "done"),
    (Do::Begin, "began 1"),
    (Do::Read(0x61, 0), "cells 61=01 62=02 63=03 64=04"),
    (Do::End, "done"),
];

// A transaction that gives up leaves nothing, and its ordinal does not come again.
const ROLLED_BACK: &[(Do, &str)] = &[
    (Do::Begin, "began 0"),
    (Do::Reserve(0, &[(0x61, 1)]), "not now"),
    (Do::Reserve(3, &[(0x62, 1), (0x61, 1)]), "not now"),
    (Do::Reserve(3, &[(0x61, 1), (0x62, 1)]), "done"),
    (Do::Put(1), "done"),
    (Do::Unput(0x62), "done"),
    (Do::End, "done"),
    (Do::Begin, "began 0"),
    (Do::Read(0x01, 0), "cells"),
    (Do::Reserve(3, &[(0x61, 1)]), "not now"),
    (Do::Reserve(4, &[]), "done"),
    (Do::Propose, "proposed 1"),
    (Do::Check(0x01, 0), "checked"),
    (Do::Decide, "decided 1"),
    (Do::End, "done"),
];

// A part without a key needs no check. A call may begin at a key that no cell has, and a tombstone takes a cell away.
const PARTS: &[(Do, &str)] = &[
    (Do::Begin, "began 0"),
    (Do::Reserve(1, &[(0x61, 1), (0x6180, 2), (0x63, 3)]), "done"),
    (Do::Put(2), "done"),
    (Do::Put(1), "done"),
    (Do::Put(0), "done"),
    (Do::Propose, "proposed 1"),
    (Do::Propose, "proposed 1"),
    (Do::Decide, "decided 1"),
    (Do::End, "done"),
    (Do::Begin, "began 1"),
    (Do::ReadFrom(0x6101, 0x61, 0x63), "cells 6180=02"),
    (Do::ReadFrom(0x64, 0x61, 0), "cells"),
    (Do::ReadFrom(0x63, 0x61, 0x63), "not now"),
    (Do::Last(0x61, 0x6180), "last true 61=01"),
    (Do::Last(0x6201, 0x63), "last false"),
    (Do::Reserve(2, &[(0x6180, 0)]), "done"),
    (Do::Put(0), "done"),
    (Do::Propose, "proposed 2"),
    (Do::CheckFrom(0x6101, 0x61, 0x63), "checked"),
    (Do::CheckFrom(0x64, 0x61, 0), "checked"),
    (Do::Decide, "not now"),
    (Do::Check(0x61, 0x6180), "checked"),
    (Do::Check(0x6201, 0x63), "checked"),
    (Do::Decide, "decided 2"),
    (Do::End, "done"),
    (Do::Begin, "began 2"),
    (Do::Read(0x61, 0), "cells 61=01 63=03"),
    (Do::End, "done"),
];

// Makes the calls of a run through a desk that has no transaction yet.
fn run_all<R: Abort, D: Desk>(
    rt: &R,
    alloc: Global,
    desk: &mut D,
    run: &[(Do, &str)],
) -> Result<(), Fail>
    requires { D.account desk.old ≡ [] }
{
    let mut guard = Guard::new(alloc);
    for (what, wanted) in run {
        let mut part = Part {
            cells: Items::new(alloc),
        };
        let answer = make_call(&mut guard, desk, alloc, call(alloc, *what)?, &mut part)?;
        assert_eq!(rt; text_of(alloc, &answer, &part)?.as_str(), *wanted);
    }
    Ok(())
}

// The runs are those of the last of 65 connections.
#[test]
fn each_call_is_answered_through_a_list_desk(rt: HostRuntime) -> Result<(), Fail> {
    let alloc = rt.alloc();
    for run in [ONE_COMMIT, PUTS_IN_ANY_ORDER, ROLLED_BACK, PARTS] {
        let mut core = Core::new(alloc, 65)?;
        assert!(&rt; core.takes_desk(64));
        let mut desk = ListDesk {
            core: &mut core,
            conn: 64,
        };
        run_all(&rt, alloc, &mut desk, run)?;
    }
    Ok(())
}

// Ranges are read and checked in parts, whatever the keys are at which they are cut.
#[test]
fn each_call_is_answered_through_a_desk_that_cuts_ranges(rt: HostRuntime) -> Result<(), Fail> {
    let alloc = rt.alloc();
    let keys = [key(alloc, 0x62)?, key(alloc, 0x6180)?, key(alloc, 0x61)?];
    for run in [ONE_COMMIT, PUTS_IN_ANY_ORDER, ROLLED_BACK, PARTS] {
        let mut core = Core::new(alloc, 1)?;
        assert!(&rt; core.takes_desk(0));
        let list = ListDesk {
            core: &mut core,
            conn: 0,
        };
        let mut desk = CutDesk::new(alloc, list, &keys)?;
        run_all(&rt, alloc, &mut desk, run)?;
    }
    Ok(())
}

// Two transactions read what the other puts: the first one commits, and the other one's check is refused.
const WRITE_SKEW: &[(u32, Do, &str)] = &[
    (0, Do::Begin, "began 0"),
    (1, Do::Begin, "began 0"),
    (0, Do::Read(0x62, 0x63), "cells"),
    (1, Do::Read(0x61, 0x62), "cells"),
    (0, Do::Reserve(1, &[(0x61, 1)]), "done"),
    (1, Do::Reserve(1, &[(0x62, 1)]), "done"),
    (0, Do::Put(0), "done"),
    (1, Do::Put(0), "done"),
    (0, Do::Propose, "proposed 1"),
    (0, Do::Check(0x62, 0x63), "checked"),
    (0, Do::Decide, "decided 1"),
    (1, Do::Propose, "proposed 2"),
    (1, Do::Decide, "not now"),
    (1, Do::Check(0x61, 0x62), "met 1 of 0.1 at 61"),
    (1, Do::Unput(0x62), "done"),
    (1, Do::End, "done"),
    (0, Do::End, "done"),
];

// What a check finds below the proposed number is named, though a newer commit put the key again.
const UNDER_A_NEWER_ONE: &[(u32, Do, &str)] = &[
    (0, Do::Begin, "began 0"),
    (0, Do::Read(0x61, 0x62), "cells"),
    (1, Do::Begin, "began 0"),
    (1, Do::Reserve(1, &[(0x61, 1)]), "done"),
    (1, Do::Put(0), "done"),
    (1, Do::Propose, "proposed 1"),
    (1, Do::Decide, "decided 1"),
    (1, Do::End, "done"),
    (0, Do::Reserve(1, &[(0x70, 1)]), "done"),
    (0, Do::Put(0), "done"),
    (0, Do::Propose, "proposed 2"),
    (2, Do::Begin, "began 1"),
    (2, Do::Read(0x60, 0), "cells 61=01"),
    (2, Do::Reserve(1, &[(0x61, 2)]), "done"),
    (2, Do::Put(0), "done"),
    (2, Do::Propose, "proposed 2"),
    (2, Do::Check(0x60, 0), "checked"),
    (2, Do::Decide, "decided 2"),
    (2, Do::End, "done"),
    (0, Do::Check(0x61, 0x62), "met 1 of 1.1 at 61"),
    (0, Do::Unput(0x70), "done"),
    (0, Do::End, "done"),
    (0, Do::Begin, "began 2"),
    (0, Do::Read(0x60, 0), "cells 61=02"),
    (0, Do::End, "done"),
];

// A put meets an undecided one, and is done once that is taken back.
const MET_BY_A_PUT: &[(u32, Do, &str)] = &[
    (0, Do::Begin, "began 0"),
    (1, Do::Begin, "began 0"),
    (0, Do::Reserve(3, &[(0x61, 1), (0x62, 1)]), "done"),
    (1, Do::Reserve(1, &[(0x62, 2)]), "done"),
    (0, Do::Put(1), "done"),
    (1, Do::Put(0), "met 1 of 0.3 at 62"),
    (1, Do::Propose, "not now"),
    (0, Do::Unput(0x62), "done"),
    (1, Do::Put(0), "done"),
    (0, Do::Put(1), "met 2 of 1.1 at 62"),
    (0, Do::End, "done"),
    (1, Do::Propose, "proposed 1"),
    (1, Do::Decide, "decided 1"),
    (1, Do::End, "done"),
    (2, Do::Begin, "began 1"),
    (2, Do::Read(0x61, 0), "cells 62=02"),
    (2, Do::End, "done"),
];

// A transaction that has lost its number proposes the next one. Its checks are void, and one of them is refused now.
const LOST_AND_MET: &[(u32, Do, &str)] = &[
    (0, Do::Begin, "began 0"),
    (1, Do::Begin, "began 0"),
    (2, Do::Begin, "began 0"),
    (0, Do::Read(0x61, 0x70), "cells"),
    (1, Do::Read(0x71, 0x80), "cells"),
    (0, Do::Reserve(1, &[(0x71, 1)]), "done"),
    (1, Do::Reserve(1, &[(0x72, 1)]), "done"),
    (2, Do::Reserve(1, &[(0x62, 1)]), "done"),
    (0, Do::Put(0), "done"),
    (1, Do::Put(0), "done"),
    (2, Do::Put(0), "done"),
    (0, Do::Propose, "proposed 1"),
    (1, Do::Propose, "proposed 1"),
    (2, Do::Propose, "proposed 1"),
    (0, Do::Check(0x61, 0x70), "checked"),
    (1, Do::Check(0x71, 0x80), "checked"),
    (0, Do::Decide, "decided 1"),
    (1, Do::Decide, "lost 1 to 1"),
    (2, Do::Decide, "lost 1 to 1"),
    (1, Do::Decide, "not now"),
    (2, Do::Propose, "proposed 2"),
    (2, Do::Decide, "decided 2"),
    (1, Do::Propose, "proposed 3"),
    (1, Do::Decide, "not now"),
    (1, Do::Check(0x71, 0x80), "met 1 of 0.1 at 71"),
    (1, Do::Unput(0x72), "done"),
    (1, Do::End, "done"),
    (0, Do::End, "done"),
    (2, Do::End, "done"),
    (1, Do::Begin, "began 2"),
    (1, Do::Read(0x61, 0), "cells 62=01 71=01"),
    (1, Do::Last(0x61, 0x71), "last true 62=01"),
    (1, Do::End, "done"),
];

// An older snapshot reads what was there, while newer ones read what came then, whichever reads first.
const OLD_AND_NEW: &[(u32, Do, &str)] = &[
    (0, Do::Begin, "began 0"),
    (
        0,
        Do::Reserve(1, &[(0x61, 1), (0x62, 1), (0x63, 1)]),
        "done",
    ),
    (0, Do::Put(0), "done"),
    (0, Do::Put(1), "done"),
    (0, Do::Put(2), "done"),
    (0, Do::Propose, "proposed 1"),
    (0, Do::Decide, "decided 1"),
    (0, Do::End, "done"),
    (1, Do::Begin, "began 1"),
    (0, Do::Begin, "began 1"),
    (
        0,
        Do::Reserve(2, &[(0x61, 2), (0x62, 0), (0x64, 2)]),
        "done",
    ),
    (0, Do::Put(2), "done"),
    (0, Do::Put(1), "done"),
    (0, Do::Put(0), "done"),
    (0, Do::Propose, "proposed 2"),
    (0, Do::Decide, "decided 2"),
    (0, Do::End, "done"),
    (2, Do::Begin, "began 2"),
    (2, Do::Read(0x61, 0), "cells 61=02 63=01 64=02"),
    (1, Do::Read(0x61, 0), "cells 61=01 62=01 63=01"),
    (1, Do::Last(0x61, 0), "last true 63=01"),
    (2, Do::Last(0x61, 0), "last true 64=02"),
    (1, Do::End, "done"),
    (2, Do::Read(0x62, 0x64), "cells 63=01"),
    (2, Do::Read(0x61, 0), "cells 61=02 63=01 64=02"),
    (2, Do::Read(0x63, 0x62), "not now"),
    (2, Do::End, "done"),
];

// Makes the calls of a run, each through a desk of its connection.
fn run_turns<R: Abort>(
    rt: &R,
    alloc: Global,
    core: &mut Core,
    guards: &mut Vec<Guard>,
    run: &[(u32, Do, &str)],
) -> Result<(), Fail>
    requires { AreGuarded core.old guards.old.items }
{
    for (conn, what, wanted) in run {
        let mut part = Part {
            cells: Items::new(alloc),
        };
        let answer = take_turn(core, guards, *conn, alloc, call(alloc, *what)?, &mut part)?;
        assert_eq!(rt; text_of(alloc, &answer, &part)?.as_str(), *wanted);
    }
    Ok(())
}

// Desks of three connections take turns at one machine, and each is made for one call.
#[test]
fn desks_take_turns_at_one_machine(rt: HostRuntime) -> Result<(), Fail> {
    let alloc = rt.alloc();
    for run in [
        WRITE_SKEW,
        UNDER_A_NEWER_ONE,
        MET_BY_A_PUT,
        LOST_AND_MET,
        OLD_AND_NEW,
    ] {
        let mut core = Core::new(alloc, 3)?;
        let mut guards = new_guards(alloc, 3)?;
        run_turns(&rt, alloc, &mut core, &mut guards, run)?;
    }
    Ok(())
}
