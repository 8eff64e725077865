//! Transactions of connection 1, between whose calls of the desk connection 2 makes its events. The answers are worked out by hand
//! from the steps of a commit in `crates/hc_commit/README.md`.
use crate::histories::{cuts, play_alone};
use crate::lane::Do;
use hc_core::{Core, CutDesk, Event, ListDesk, NoMemory, Outcome};
use hc_range::Bytes;
use hc_test_desks::{MeddledDesk, Turn};
use std::alloc::Global;
use std::process::Abort;
use std::test::Fail;

// What connection 2 does. A record of 0 is a tombstone.
#[derive(Debug, Clone, Copy)]
enum Other {
    Begin,
    Read(u8),
    // An id, with an ordinal.
    Draw(u32),
    Put(u8, u8),
    Propose,
    Check(u8),
    Decide,
    Unput(u8),
    End,
    // A whole transaction that puts one write.
    Commit(u32, u8, u8),
}

// A history of connection 1; what connection 2 does before some calls of the desk, which are counted from 1; and what it is
// answered.
struct Meeting {
    history: &'static [(u32, Do, &'static str)],
    others: &'static [(u32, &'static [Other])],
    answers: &'static str,
}

// Begin, read 61, reserve, put, propose, check and decide: connection 2 takes the number that is proposed, with a write that was
// not read. The next number is proposed, and all is checked again.
const NUMBER_LOST: Meeting = Meeting {
    history: &[
        (1, Do::Begin, "began 0"),
        (1, Do::Write(0x61, 0x11), "written"),
        (1, Do::Commit, "commit 2"),
        (1, Do::Begin, "began 2"),
        (1, Do::Range(0x61, 0), "cells 61=11 62=22"),
    ],
    others: &[(7, &[Other::Commit(1, 0x62, 0x22)])],
    answers: "began 0, drew, done, proposed 1, decided 1, done",
};

// Begin, read 63, read 61, reserve, put, propose, check 61, check 63, decide: connection 2 takes the number with a write of a key
// that was read. Propose, check 61, and the check of 63 is refused. What was put is taken out (13), and connection 2 puts that key
// while the next transaction is open (16).
const SECOND_CHECK_REFUSED: Meeting = Meeting {
    history: &[
        (1, Do::Begin, "began 0"),
        (1, Do::Get(0x63), "none"),
        (1, Do::Write(0x61, 0x11), "written"),
        (1, Do::Commit, "met conn 2 ord 1 key 63, rolled back 0"),
        (1, Do::Begin, "began 1"),
        (1, Do::Get(0x63), "33"),
        (1, Do::Write(0x61, 0x12), "written"),
        (1, Do::Commit, "commit 2"),
    ],
    others: &[
        (9, &[Other::Commit(1, 0x63, 0x33)]),
        (
            16,
            &[
                Other::Begin,
                Other::Draw(2),
                Other::Put(0x61, 0x21),
                Other::Unput(0x61),
                Other::End,
            ],
        ),
    ],
    answers: "began 0, drew, done, proposed 1, decided 1, done, began 1, drew, done, done, done",
};

// Begin, read 60, read 61, reserve: connection 2 has put 61 and not decided. 60 is put, the put of 61 is refused, and 60 is taken
// out: connection 2, which decides while the next transaction reserves (11), puts 60 then.
const UNDECIDED_PUT_MET: Meeting = Meeting {
    history: &[
        (1, Do::Begin, "began 0"),
        (1, Do::Write(0x60, 0x10), "written"),
        (1, Do::Write(0x61, 0x11), "written"),
        (1, Do::Commit, "met conn 2 ord 1 key 61, rolled back 0"),
        (1, Do::Begin, "began 0"),
        (1, Do::Write(0x62, 0x12), "written"),
        (1, Do::Commit, "commit 2"),
        (1, Do::Begin, "began 2"),
        (1, Do::Range(0x60, 0), "cells 61=21 62=12"),
    ],
    others: &[
        (4, &[Other::Begin, Other::Draw(1), Other::Put(0x61, 0x21)]),
        (
            11,
            &[
                Other::Propose,
                Other::Decide,
                Other::End,
                Other::Begin,
                Other::Draw(2),
                Other::Put(0x60, 0x20),
                Other::Unput(0x60),
                Other::End,
            ],
        ),
    ],
    answers: "began 0, drew, done, proposed 1, decided 1, done, began 1, drew, done, done, done",
};

// Between put and check (6) connection 2 meets what is put and not decided, and gives up.
const OWN_PUT_IS_MET: Meeting = Meeting {
    history: &[
        (1, Do::Begin, "began 0"),
        (1, Do::Write(0x61, 0x11), "written"),
        (1, Do::Commit, "commit 1"),
    ],
    others: &[(
        6,
        &[
            Other::Begin,
            Other::Draw(1),
            Other::Put(0x61, 0x21),
            Other::End,
        ],
    )],
    answers: "began 0, drew, met, done",
};

// They write two keys.
const TWO_KEYS: Meeting = Meeting {
    history: &[
        (1, Do::Begin, "began 0"),
        (1, Do::Write(0x61, 0x11), "written"),
        (1, Do::Commit, "commit 2"),
        (1, Do::Begin, "began 2"),
        (1, Do::Range(0x61, 0), "cells 61=11 62=21"),
    ],
    others: &[(3, &[Other::Commit(1, 0x62, 0x21)])],
    answers: "began 0, drew, done, proposed 1, decided 1, done",
};

// A lost update, which is committed by a new transaction.
const LOST_UPDATE: Meeting = Meeting {
    history: &[
        (1, Do::Begin, "began 0"),
        (1, Do::Write(0x61, 0x12), "written"),
        (1, Do::Commit, "met conn 2 ord 1 key 61, rolled back 0"),
        (1, Do::Begin, "began 1"),
        (1, Do::Get(0x61), "11"),
        (1, Do::Write(0x61, 0x12), "written"),
        (1, Do::Commit, "commit 2"),
    ],
    others: &[(3, &[Other::Commit(1, 0x61, 0x11)])],
    answers: "began 0, drew, done, proposed 1, decided 1, done",
};

// What is read stays what it was.
const SNAPSHOT: Meeting = Meeting {
    history: &[
        (1, Do::Begin, "began 1"),
        (1, Do::Get(0x61), "10"),
        (1, Do::Range(0x60, 0), "cells 61=10"),
        (1, Do::Last(0x60, 0x70), "cells 61=10"),
        (1, Do::Commit, "snapshot 1"),
    ],
    others: &[
        (1, &[Other::Commit(1, 0x61, 0x10)]),
        (3, &[Other::Commit(2, 0x61, 0x11)]),
        (4, &[Other::Commit(3, 0x62, 0x20)]),
    ],
    answers: "began 0, drew, done, proposed 1, decided 1, done, began 1, drew, done, proposed 2, decided 2, done, \
        began 2, drew, done, proposed 3, decided 3, done",
};

// Each reads what the other one writes. Connection 2 has begun before (2), and commits before room is made (4).
const WRITE_SKEW: Meeting = Meeting {
    history: &[
        (1, Do::Begin, "began 0"),
        (1, Do::Get(0x62), "none"),
        (1, Do::Write(0x61, 0x11), "written"),
        (1, Do::Commit, "met conn 2 ord 1 key 62, rolled back 0"),
    ],
    others: &[
        (2, &[Other::Begin, Other::Read(0x61)]),
        (
            4,
            &[
                Other::Draw(1),
                Other::Put(0x62, 0x21),
                Other::Propose,
                Other::Check(0x61),
                Other::Decide,
                Other::End,
            ],
        ),
    ],
    answers: "began 0, read, drew, done, proposed 1, done, decided 1, done",
};

// The same, where connection 1 has decided before: the check of connection 2 is refused.
const WRITE_SKEW_LATER: Meeting = Meeting {
    history: &[
        (1, Do::Begin, "began 0"),
        (1, Do::Get(0x62), "none"),
        (1, Do::Write(0x61, 0x11), "written"),
        (1, Do::Commit, "commit 1"),
    ],
    others: &[
        (2, &[Other::Begin, Other::Read(0x61)]),
        (
            10,
            &[
                Other::Draw(1),
                Other::Put(0x62, 0x21),
                Other::Propose,
                Other::Check(0x61),
                Other::Unput(0x62),
                Other::End,
            ],
        ),
    ],
    answers: "began 0, read, drew, done, proposed 2, met, done, done",
};

// A key comes into a range that was read.
const PHANTOM: Meeting = Meeting {
    history: &[
        (1, Do::Begin, "began 0"),
        (1, Do::Range(0x61, 0x70), "cells"),
        (1, Do::Write(0x80, 0x01), "written"),
        (1, Do::Commit, "met conn 2 ord 1 key 65, rolled back 0"),
    ],
    others: &[(3, &[Other::Commit(1, 0x65, 0x50)])],
    answers: "began 0, drew, done, proposed 1, decided 1, done",
};

// A write of the record that is there is no write.
const UNCHANGED: Meeting = Meeting {
    history: &[
        (1, Do::Begin, "began 1"),
        (1, Do::Write(0x61, 0x10), "written"),
        (1, Do::Commit, "snapshot 1"),
        (1, Do::Begin, "began 2"),
        (1, Do::Get(0x61), "12"),
    ],
    others: &[
        (1, &[Other::Commit(1, 0x61, 0x10)]),
        (3, &[Other::Commit(2, 0x61, 0x12)]),
    ],
    answers: "began 0, drew, done, proposed 1, decided 1, done, began 1, drew, done, proposed 2, decided 2, done",
};

// Both take the key after the last one.
const NEXT_KEY: Meeting = Meeting {
    history: &[
        (1, Do::Begin, "began 1"),
        (1, Do::Last(0x61, 0x70), "cells 61=10"),
        (1, Do::Write(0x62, 0x30), "written"),
        (1, Do::Commit, "met conn 2 ord 2 key 62, rolled back 1"),
    ],
    others: &[
        (1, &[Other::Commit(1, 0x61, 0x10)]),
        (4, &[Other::Commit(2, 0x62, 0x40)]),
    ],
    answers: "began 0, drew, done, proposed 1, decided 1, done, began 1, drew, done, proposed 2, decided 2, done",
};

// A refused statement is undone, and its transaction goes on.
const REFUSED_STATEMENT: Meeting = Meeting {
    history: &[
        (1, Do::Begin, "began 1"),
        (1, Do::Start, "done"),
        (1, Do::Last(0x61, 0x70), "cells 6f=70"),
        (1, Do::Undo, "done"),
        (1, Do::Range(0x61, 0x70), "cells 6f=70"),
        (1, Do::Commit, "snapshot 1"),
    ],
    others: &[
        (1, &[Other::Commit(1, 0x6f, 0x70)]),
        (3, &[Other::Commit(2, 0x62, 0x20)]),
    ],
    answers: "began 0, drew, done, proposed 1, decided 1, done, began 1, drew, done, proposed 2, decided 2, done",
};

// A key that was read before it was there comes and goes.
const TOMBSTONE: Meeting = Meeting {
    history: &[
        (1, Do::Begin, "began 0"),
        (1, Do::Get(0x65), "none"),
        (1, Do::Write(0x61, 0x11), "written"),
        (1, Do::Commit, "met conn 2 ord 2 key 65, rolled back 0"),
    ],
    others: &[(
        4,
        &[Other::Commit(1, 0x65, 0x50), Other::Commit(2, 0x65, 0x00)],
    )],
    answers: "began 0, drew, done, proposed 1, decided 1, done, began 1, drew, done, proposed 2, decided 2, done",
};

// A savepoint is undone to, twice.
const SAVEPOINT: Meeting = Meeting {
    history: &[
        (1, Do::Begin, "began 0"),
        (1, Do::Write(0x61, 0x11), "written"),
        (1, Do::Mark("a"), "marked"),
        (1, Do::Write(0x62, 0x12), "written"),
        (1, Do::Write(0x61, 0x12), "written"),
        (1, Do::UndoTo("A"), "undone"),
        (1, Do::Get(0x61), "11"),
        (1, Do::Write(0x63, 0x13), "written"),
        (1, Do::UndoTo("a"), "undone"),
        (1, Do::Range(0x61, 0x70), "cells 61=11"),
        (1, Do::Release("a"), "released"),
        (1, Do::Commit, "commit 2"),
    ],
    others: &[(3, &[Other::Commit(1, 0x50, 0x05)])],
    answers: "began 0, drew, done, proposed 1, decided 1, done",
};

const MEETINGS: &[Meeting] = &[
    NUMBER_LOST,
    SECOND_CHECK_REFUSED,
    UNDECIDED_PUT_MET,
    OWN_PUT_IS_MET,
    TWO_KEYS,
    LOST_UPDATE,
    SNAPSHOT,
    WRITE_SKEW,
    WRITE_SKEW_LATER,
    PHANTOM,
    UNCHANGED,
    NEXT_KEY,
    REFUSED_STATEMENT,
    TOMBSTONE,
    SAVEPOINT,
];

fn key_bytes(alloc: Global, key: u8) -> Result<Bytes, NoMemory> {
    Bytes::from_slice(alloc, &[key])
}

fn rec_bytes(alloc: Global, rec: u8) -> Result<Option<Bytes>, NoMemory> {
    match rec {
        0 => Ok(None),
        rec => Ok(Some(Bytes::from_slice(alloc, &[rec])?)),
    }
}

// The upper end of the part that has one key.
fn after(alloc: Global, key: u8) -> Result<Option<Bytes>, NoMemory> {
    Ok(Some(Bytes::from_slice(alloc, &[key, 0])?))
}

fn event(alloc: Global, what: Other) -> Result<Event, NoMemory> {
    Ok(match what {
        Other::Begin => Event::Begin { conn: 2 },
        Other::Read(key) => Event::Read {
            conn: 2,
            from: key_bytes(alloc, key)?,
            upto: after(alloc, key)?,
        },
        Other::Draw(ord) => Event::Draw { conn: 2, ord },
        Other::Put(key, rec) => Event::Put {
            conn: 2,
            key: key_bytes(alloc, key)?,
            rec: rec_bytes(alloc, rec)?,
        },
        Other::Propose => Event::Propose { conn: 2 },
        Other::Check(key) => Event::Check {
            conn: 2,
            from: key_bytes(alloc, key)?,
            upto: after(alloc, key)?,
        },
        Other::Decide => Event::Decide { conn: 2 },
        Other::Unput(key) => Event::Unput {
            conn: 2,
            key: key_bytes(alloc, key)?,
        },
        Other::End | Other::Commit(..) => Event::End { conn: 2 },
    })
}

fn push_event(alloc: Global, turns: &mut Vec<Turn>, what: Other) -> Result<(), NoMemory> {
    turns.push(Turn::Make(event(alloc, what)?))?;
    Ok(())
}

fn push_events(alloc: Global, turns: &mut Vec<Turn>, what: Other) -> Result<(), NoMemory> {
    if let Other::Commit(ord, key, rec) = what {
        push_event(alloc, turns, Other::Begin)?;
        push_event(alloc, turns, Other::Draw(ord))?;
        push_event(alloc, turns, Other::Put(key, rec))?;
        push_event(alloc, turns, Other::Propose)?;
        push_event(alloc, turns, Other::Decide)?;
    }
    push_event(alloc, turns, what)
}

// Connection 2 waits for each call of the desk before which it does nothing.
fn turns(alloc: Global, others: &[(u32, &[Other])]) -> Result<Vec<Turn>, NoMemory> {
    let mut turns = Vec::new(alloc);
    let mut before: u32 = 1;
    for (at, calls) in others {
        for _ in before..*at {
            turns.push(Turn::Wait)?;
        }
        before = *at;
        for what in *calls {
            push_events(alloc, &mut turns, *what)?;
        }
    }
    Ok(turns)
}

fn answer_text(alloc: Global, answer: &Outcome) -> Result<String, NoMemory> {
    match answer {
        Outcome::NotNow => format!(in alloc; "not now"),
        Outcome::Done => format!(in alloc; "done"),
        Outcome::Began(number) => format!(in alloc; "began {}", number.0),
        Outcome::Drew(_) => format!(in alloc; "drew"),
        Outcome::Cells(_) => format!(in alloc; "read"),
        Outcome::Met(_) => format!(in alloc; "met"),
        Outcome::Proposed(number) => format!(in alloc; "proposed {}", number.0),
        Outcome::Decided(number) => format!(in alloc; "decided {}", number.0),
        Outcome::Lost(_) => format!(in alloc; "lost"),
    }
}

fn answers_text(alloc: Global, answers: &[Outcome]) -> Result<String, NoMemory> {
    let mut text = String::new(alloc);
    for answer in answers {
        if !text.is_empty() {
            text.push_str(", ")?;
        }
        text.push_str(answer_text(alloc, answer)?.as_str())?;
    }
    Ok(text)
}

// Compares what connection 2 was answered.
fn check_answers<R: Abort>(
    rt: &R,
    alloc: Global,
    meeting: &Meeting,
    answers: &[Outcome],
) -> Result<(), Fail> {
    let text = answers_text(alloc, answers)?;
    assert_eq!(rt; text.as_str(), meeting.answers);
    Ok(())
}

fn play<R: Abort>(rt: &R, alloc: Global, meeting: &Meeting) -> Result<(), Fail> {
    let mut core = Core::new(alloc, 3)?;
    assert!(rt; core.takes_desk(1));
    let list = ListDesk {
        core: &mut core,
        conn: 1,
    };
    let turns = turns(alloc, meeting.others)?;
    let Some(mut desk) = MeddledDesk::new(alloc, list, 2, turns) else {
        assert!(rt; false);
        return Ok(());
    };
    play_alone(rt, alloc, &mut desk, meeting.history)?;
    check_answers(rt, alloc, meeting, desk.answers.as_slice())
}

// The same through a desk that cuts ranges: connection 2 makes its events between the parts of a range too.
fn play_cut<R: Abort>(rt: &R, alloc: Global, meeting: &Meeting) -> Result<(), Fail> {
    let mut core = Core::new(alloc, 3)?;
    assert!(rt; core.takes_desk(1));
    let list = ListDesk {
        core: &mut core,
        conn: 1,
    };
    let turns = turns(alloc, meeting.others)?;
    let Some(desk) = MeddledDesk::new(alloc, list, 2, turns) else {
        assert!(rt; false);
        return Ok(());
    };
    let mut cut = CutDesk::new(alloc, desk, &cuts())?;
    play_alone(rt, alloc, &mut cut, meeting.history)?;
    let desk = cut.into_inner();
    check_answers(rt, alloc, meeting, desk.answers.as_slice())
}

#[test]
fn another_connection_commits_between_two_calls(rt: HostRuntime) -> Result<(), Fail> {
    for meeting in MEETINGS {
        play(&rt, rt.alloc(), meeting)?;
        play_cut(&rt, rt.alloc(), meeting)?;
    }
    Ok(())
}
