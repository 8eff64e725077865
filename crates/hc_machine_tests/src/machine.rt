//! Tests of the public functions of `hc_core`: runs of the machine with the answers that its table gives, worked out
//! by hand. Keys and records are written as numbers in hexadecimal: one to four bytes, the first one not 0. An upper
//! end of 0 means that there is none.
ghost use Rattle.std.specs.Prelude.{◌≤◌, IfOk, length};
ghost use Rattle.hc_core.specs.Kept.{PutsShortKey};

use hc_core::{Event, EventMachine, NoMemory, Outcome};
use hc_range::Bytes;
use std::alloc::Global;
use std::test::Fail;

#[derive(Debug, Clone, Copy)]
pub enum Do {
    Begin(u32),
    Draw(u32, u32),
    Read(u32, u32, u32),
    Put(u32, u32, u32),
    PutEmpty(u32, u32),
    PutTombstone(u32, u32),
    Propose(u32),
    Check(u32, u32, u32),
    Decide(u32),
    Unput(u32, u32),
    End(u32),
    Purge(u32),
}

pub fn bytes(alloc: Global, number: u32) -> Result<Bytes, NoMemory>
    ensures { IfOk result (λ bytes. length bytes ≤ 463) }
{
    let zeros = match number {
        0..=0xff => 3,
        0x100..=0xffff => 2,
        0x1_0000..=0xff_ffff => 1,
        _ => 0,
    };
    Bytes::from_slice(alloc, &number.to_be_bytes()[zeros..])
}

pub fn end(alloc: Global, end: u32) -> Result<Option<Bytes>, NoMemory> {
    match end {
        0 => Ok(None),
        end => Ok(Some(bytes(alloc, end)?)),
    }
}

pub fn event(alloc: Global, what: Do) -> Result<Event, NoMemory>
    ensures { IfOk result PutsShortKey }
{
    Ok(match what {
        Do::Begin(conn) => Event::Begin { conn },
        Do::Draw(conn, ord) => Event::Draw { conn, ord },
        Do::Read(conn, from, upto) => Event::Read {
            conn,
            from: bytes(alloc, from)?,
            upto: end(alloc, upto)?,
        },
        Do::Put(conn, key, rec) => Event::Put {
            conn,
            key: bytes(alloc, key)?,
            rec: Some(bytes(alloc, rec)?),
        },
        Do::PutEmpty(conn, key) => Event::Put {
            conn,
            key: bytes(alloc, key)?,
            rec: Some(Bytes::from_slice(alloc, &[])?),
        },
        Do::PutTombstone(conn, key) => Event::Put {
            conn,
            key: bytes(alloc, key)?,
            rec: None,
        },
        Do::Propose(conn) => Event::Propose { conn },
        Do::Check(conn, from, upto) => Event::Check {
            conn,
            from: bytes(alloc, from)?,
            upto: end(alloc, upto)?,
        },
        Do::Decide(conn) => Event::Decide { conn },
        Do::Unput(conn, key) => Event::Unput {
            conn,
            key: bytes(alloc, key)?,
        },
        Do::End(conn) => Event::End { conn },
        Do::Purge(key) => Event::Purge {
            key: bytes(alloc, key)?,
        },
    })
}

pub fn push_bytes(alloc: Global, text: &mut String, bytes: &[u8]) -> Result<(), Fail> {
    for byte in bytes {
        text.push_str(format!(in alloc; "{byte:02x}")?.as_str())?;
    }
    Ok(())
}

pub fn answer(alloc: Global, outcome: &Outcome) -> Result<String, Fail> {
    Ok(match outcome {
        Outcome::Done => format!(in alloc; "done")?,
        Outcome::Began(snapshot) => format!(in alloc; "began {}", snapshot.0)?,
        Outcome::Drew(id) => format!(in alloc; "drew {}", id.0)?,
        Outcome::Cells(part) => {
            let mut text = format!(in alloc; "cells")?;
            for cell in part.cells.as_slice() {
                text.push_str(" ")?;
                push_bytes(alloc, &mut text, cell.key.as_slice())?;
                text.push_str("=")?;
                push_bytes(alloc, &mut text, cell.rec.as_slice())?;
            }
            text
        }
        Outcome::Met(met) => {
            let mut text = format!(in alloc; "met {} of {}.{} at ", met.tid.0, met.conn, met.ord)?;
            push_bytes(alloc, &mut text, met.key.as_slice())?;
            text
        }
        Outcome::Proposed(number) => format!(in alloc; "proposed {}", number.0)?,
        Outcome::Lost(lost) => format!(in alloc; "lost {} to {}", lost.cid.0, lost.other.0)?,
        Outcome::Decided(number) => format!(in alloc; "decided {}", number.0)?,
        Outcome::NotNow => format!(in alloc; "not now")?,
    })
}

// A run of a new machine: how many connections it has beside the first, and its events with their answers.
#[derive(Clone, Copy)]
struct Run {
    others: u8,
    events: &'static [(Do, &'static str)],
}

const ONE_COMMIT: Run = Run {
    others: 1,
    events: &[
        (Do::Put(0, 0x61, 1), "not now"),
        (Do::Begin(0), "began 0"),
        (Do::Draw(0, 1), "drew 1"),
        (Do::Put(0, 0x61, 1), "done"),
        (Do::Propose(0), "proposed 1"),
        (Do::Decide(0), "decided 1"),
        (Do::End(0), "done"),
        (Do::Begin(2), "not now"),
    ],
};

const WRITE_SKEW: Run = Run {
    others: 1,
    events: &[
        (Do::Begin(0), "began 0"),
        (Do::Begin(1), "began 0"),
        (Do::Read(0, 0x62, 0x63), "cells"),
        (Do::Read(1, 0x61, 0x62), "cells"),
        (Do::Draw(0, 1), "drew 1"),
        (Do::Draw(1, 1), "drew 2"),
        (Do::PutEmpty(0, 0x61), "done"),
        (Do::PutEmpty(1, 0x62), "done"),
        (Do::Propose(0), "proposed 1"),
        (Do::Check(0, 0x62, 0x63), "done"),
        (Do::Decide(0), "decided 1"),
        (Do::Propose(1), "proposed 2"),
        (Do::Decide(1), "not now"),
        (Do::Check(1, 0x61, 0x62), "met 1 of 0.1 at 61"),
        (Do::Unput(1, 0x62), "done"),
        (Do::End(1), "done"),
        (Do::End(0), "done"),
    ],
};

// A version under a newer one is found, and it is the older one that is named.
const UNDER_A_NEWER_ONE: Run = Run {
    others: 2,
    events: &[
        (Do::Begin(0), "began 0"),
        (Do::Read(0, 0x61, 0x62), "cells"),
        (Do::Begin(1), "began 0"),
        (Do::Draw(1, 1), "drew 1"),
        (Do::Put(1, 0x61, 1), "done"),
        (Do::Propose(1), "proposed 1"),
        (Do::Decide(1), "decided 1"),
        (Do::End(1), "done"),
        (Do::Draw(0, 1), "drew 2"),
        (Do::Put(0, 0x70, 1), "done"),
        (Do::Propose(0), "proposed 2"),
        (Do::Begin(2), "began 1"),
        (Do::Draw(2, 1), "drew 3"),
        (Do::Put(2, 0x61, 2), "done"),
        (Do::Propose(2), "proposed 2"),
        (Do::Decide(2), "decided 2"),
        (Do::End(2), "done"),
        (Do::Check(0, 0x61, 0x62), "met 1 of 1.1 at 61"),
    ],
};

// A lost number voids the checks, and a second proposal needs them again.
const LOST_AND_PROPOSED_AGAIN: Run = Run {
    others: 1,
    events: &[
        (Do::Begin(0), "began 0"),
        (Do::Read(0, 0x10, 0), "cells"),
        (Do::Draw(0, 7), "drew 1"),
        (Do::Put(0, 0x61, 1), "done"),
        (Do::Propose(0), "proposed 1"),
        (Do::Check(0, 0x10, 0x20), "done"),
        (Do::Decide(0), "not now"),
        (Do::Check(0, 0x20, 0), "done"),
        (Do::Begin(1), "began 0"),
        (Do::Draw(1, 1), "drew 2"),
        (Do::Put(1, 0x05, 1), "done"),
        (Do::Propose(1), "proposed 1"),
        (Do::Decide(1), "decided 1"),
        (Do::Decide(0), "lost 1 to 2"),
        (Do::Decide(0), "not now"),
        (Do::Check(0, 0x10, 0), "not now"),
        (Do::Propose(0), "proposed 2"),
        (Do::Decide(0), "not now"),
        (Do::Check(0, 0x10, 0), "done"),
        (Do::Propose(0), "proposed 2"),
        (Do::Decide(0), "not now"),
        (Do::Check(0, 0x10, 0), "done"),
        (Do::Decide(0), "decided 2"),
    ],
};

// A put meets an undecided one, until that one is taken out; then it meets the commit above its snapshot.
const PUTS_MEET: Run = Run {
    others: 2,
    events: &[
        (Do::Begin(0), "began 0"),
        (Do::Begin(1), "began 0"),
        (Do::Begin(2), "began 0"),
        (Do::Draw(0, 1), "drew 1"),
        (Do::Draw(1, 1), "drew 2"),
        (Do::Draw(2, 1), "drew 3"),
        (Do::Put(0, 0x61, 1), "done"),
        (Do::Put(0, 0x61, 2), "not now"),
        (Do::Put(1, 0x61, 2), "met 1 of 0.1 at 61"),
        (Do::End(0), "not now"),
        (Do::Unput(0, 0x62), "not now"),
        (Do::Unput(0, 0x61), "done"),
        (Do::Put(1, 0x61, 2), "done"),
        (Do::End(0), "done"),
        (Do::Propose(1), "proposed 1"),
        (Do::Put(1, 0x62, 2), "not now"),
        (Do::Decide(1), "decided 1"),
        (Do::Put(2, 0x61, 3), "met 2 of 1.1 at 61"),
        (Do::End(2), "done"),
        (Do::Begin(2), "began 1"),
        (Do::Draw(2, 1), "not now"),
        (Do::Draw(2, 2), "drew 4"),
        (Do::Put(2, 0x61, 3), "done"),
    ],
};

// A tombstone is forgotten only where each open transaction sees it; a snapshot goes on seeing what it saw.
const TOMBSTONES: Run = Run {
    others: 2,
    events: &[
        (Do::Begin(0), "began 0"),
        (Do::Draw(0, 1), "drew 1"),
        (Do::Put(0, 0x61, 0x0a), "done"),
        (Do::Put(0, 0x63, 0x0c), "done"),
        (Do::Propose(0), "proposed 1"),
        (Do::Decide(0), "decided 1"),
        (Do::Purge(0x61), "not now"),
        (Do::End(0), "done"),
        (Do::Begin(1), "began 1"),
        (Do::Begin(0), "began 1"),
        (Do::Draw(0, 2), "drew 2"),
        (Do::PutTombstone(0, 0x61), "done"),
        (Do::Purge(0x61), "not now"),
        (Do::Put(0, 0x62, 0x0b), "done"),
        (Do::Propose(0), "proposed 2"),
        (Do::Decide(0), "decided 2"),
        (Do::End(0), "done"),
        (Do::Begin(2), "began 2"),
        (Do::Purge(0x61), "not now"),
        (Do::Read(1, 0x61, 0), "cells 61=0a 63=0c"),
        (Do::Read(2, 0x61, 0), "cells 62=0b 63=0c"),
        (Do::Read(2, 0x62, 0x63), "cells 62=0b"),
        (Do::Read(2, 0x63, 0x62), "cells"),
        (Do::End(1), "done"),
        (Do::Purge(0x61), "done"),
        (Do::Purge(0x62), "not now"),
        (Do::Purge(0x7a), "not now"),
        (Do::Read(2, 0x61, 0), "cells 62=0b 63=0c"),
    ],
};

// Of the keys that were put between, the least is named, with the newest commit below the proposed number.
const THE_LEAST_KEY_AND_ITS_NEWEST_COMMIT: Run = Run {
    others: 2,
    events: &[
        (Do::Begin(0), "began 0"),
        (Do::Read(0, 0x61, 0x63), "cells"),
        (Do::Begin(1), "began 0"),
        (Do::Draw(1, 1), "drew 1"),
        (Do::Put(1, 0x62, 1), "done"),
        (Do::Propose(1), "proposed 1"),
        (Do::Decide(1), "decided 1"),
        (Do::End(1), "done"),
        (Do::Begin(1), "began 1"),
        (Do::Draw(1, 2), "drew 2"),
        (Do::Put(1, 0x61, 2), "done"),
        (Do::Propose(1), "proposed 2"),
        (Do::Decide(1), "decided 2"),
        (Do::End(1), "done"),
        (Do::Begin(2), "began 2"),
        (Do::Draw(2, 1), "drew 3"),
        (Do::Put(2, 0x61, 3), "done"),
        (Do::Propose(2), "proposed 3"),
        (Do::Decide(2), "decided 3"),
        (Do::End(2), "done"),
        (Do::Draw(0, 1), "drew 4"),
        (Do::Propose(0), "proposed 4"),
        (Do::Check(0, 0x61, 0x63), "met 3 of 2.1 at 61"),
        (Do::Check(0, 0x62, 0x63), "met 1 of 1.1 at 62"),
        (Do::Check(0, 0x63, 0), "done"),
        (Do::Begin(1), "began 3"),
        (Do::Read(1, 0x61, 0), "cells 61=03 62=01"),
    ],
};

// What is not enabled changes nothing.
const NOT_ENABLED: Run = Run {
    others: 1,
    events: &[
        (Do::Draw(0, 1), "not now"),
        (Do::End(0), "not now"),
        (Do::Begin(0), "began 0"),
        (Do::Begin(0), "not now"),
        (Do::Propose(0), "not now"),
        (Do::Check(0, 0x61, 0), "not now"),
        (Do::Decide(0), "not now"),
        (Do::Put(0, 0x61, 1), "not now"),
        (Do::Draw(0, 0), "not now"),
        (Do::Draw(0, 5), "drew 1"),
        (Do::Draw(0, 6), "not now"),
        (Do::Read(0, 0x61, 0), "not now"),
        (Do::Put(0, 0x61, 1), "done"),
        (Do::Propose(0), "proposed 1"),
        (Do::Decide(0), "decided 1"),
        (Do::Decide(0), "not now"),
        (Do::Unput(0, 0x61), "not now"),
        (Do::Put(0, 0x62, 1), "not now"),
        (Do::Propose(0), "not now"),
        (Do::End(0), "done"),
        (Do::End(0), "not now"),
        (Do::Begin(0), "began 1"),
        (Do::Draw(0, 5), "not now"),
        (Do::Draw(0, 6), "drew 2"),
        (Do::Read(7, 0x61, 0), "not now"),
        (Do::Put(7, 0x61, 1), "not now"),
    ],
};

// A record without bytes is a record: it is read back, and it is never purged as a tombstone is.
const AN_EMPTY_RECORD: Run = Run {
    others: 1,
    events: &[
        (Do::Begin(0), "began 0"),
        (Do::Draw(0, 1), "drew 1"),
        (Do::PutEmpty(0, 0x61), "done"),
        (Do::Put(0, 0x62, 1), "done"),
        (Do::PutTombstone(0, 0x63), "done"),
        (Do::Propose(0), "proposed 1"),
        (Do::Decide(0), "decided 1"),
        (Do::End(0), "done"),
        (Do::Begin(1), "began 1"),
        (Do::Read(1, 0x61, 0), "cells 61= 62=01"),
        (Do::Purge(0x61), "not now"),
        (Do::Purge(0x63), "done"),
    ],
};

// A tombstone may stand where no record was: no read sees it, and a check finds it.
const A_TOMBSTONE_WITHOUT_A_RECORD: Run = Run {
    others: 1,
    events: &[
        (Do::Begin(0), "began 0"),
        (Do::Read(0, 0x61, 0x62), "cells"),
        (Do::Begin(1), "began 0"),
        (Do::Draw(1, 1), "drew 1"),
        (Do::PutTombstone(1, 0x61), "done"),
        (Do::Propose(1), "proposed 1"),
        (Do::Decide(1), "decided 1"),
        (Do::End(1), "done"),
        (Do::Begin(1), "began 1"),
        (Do::Read(1, 0x61, 0), "cells"),
        (Do::Draw(0, 1), "drew 2"),
        (Do::Propose(0), "proposed 2"),
        (Do::Check(0, 0x61, 0x62), "met 1 of 1.1 at 61"),
    ],
};

// A proposal stands after the decision too. A check then looks below the number that was taken, so it finds
// neither the transaction's own put nor a later one.
const CHECKS_AFTER_THE_DECISION: Run = Run {
    others: 1,
    events: &[
        (Do::Begin(0), "began 0"),
        (Do::Read(0, 0x61, 0x62), "cells"),
        (Do::Begin(1), "began 0"),
        (Do::Draw(1, 1), "drew 1"),
        (Do::Put(1, 0x63, 1), "done"),
        (Do::Propose(1), "proposed 1"),
        (Do::Decide(1), "decided 1"),
        (Do::End(1), "done"),
        (Do::Draw(0, 1), "drew 2"),
        (Do::Put(0, 0x70, 1), "done"),
        (Do::Propose(0), "proposed 2"),
        (Do::Check(0, 0x61, 0x62), "done"),
        (Do::Decide(0), "decided 2"),
        (Do::Begin(1), "began 2"),
        (Do::Draw(1, 2), "drew 3"),
        (Do::Put(1, 0x61, 2), "done"),
        (Do::Propose(1), "proposed 3"),
        (Do::Decide(1), "decided 3"),
        (Do::Check(0, 0x61, 0x62), "done"),
        (Do::Check(0, 0x64, 0), "done"),
        (Do::Check(0, 0x61, 0), "met 1 of 1.1 at 63"),
        (Do::End(0), "done"),
        (Do::Check(0, 0x61, 0x62), "not now"),
    ],
};

// A key may be taken out while a proposal stands, and the commit is without it. It is taken out once.
const TAKEN_OUT_UNDER_A_PROPOSAL: Run = Run {
    others: 1,
    events: &[
        (Do::Begin(0), "began 0"),
        (Do::Draw(0, 1), "drew 1"),
        (Do::Put(0, 0x61, 1), "done"),
        (Do::Put(0, 0x62, 2), "done"),
        (Do::Propose(0), "proposed 1"),
        (Do::Unput(0, 0x61), "done"),
        (Do::Unput(0, 0x61), "not now"),
        (Do::Decide(0), "decided 1"),
        (Do::End(0), "done"),
        (Do::Begin(1), "began 1"),
        (Do::Read(1, 0x61, 0), "cells 62=02"),
    ],
};

// A key that was taken out may be put again, and it is the later record that is committed.
const PUT_AGAIN: Run = Run {
    others: 1,
    events: &[
        (Do::Begin(0), "began 0"),
        (Do::Draw(0, 1), "drew 1"),
        (Do::Put(0, 0x61, 1), "done"),
        (Do::Unput(0, 0x61), "done"),
        (Do::Put(0, 0x61, 2), "done"),
        (Do::Put(0, 0x61, 3), "not now"),
        (Do::Propose(0), "proposed 1"),
        (Do::Decide(0), "decided 1"),
        (Do::End(0), "done"),
        (Do::Begin(1), "began 1"),
        (Do::Read(1, 0x61, 0), "cells 61=02"),
    ],
};

// Once its number is lost, a transaction may put again.
const PUT_AFTER_LOST: Run = Run {
    others: 1,
    events: &[
        (Do::Begin(0), "began 0"),
        (Do::Draw(0, 1), "drew 1"),
        (Do::Put(0, 0x61, 1), "done"),
        (Do::Propose(0), "proposed 1"),
        (Do::Put(0, 0x62, 1), "not now"),
        (Do::Begin(1), "began 0"),
        (Do::Draw(1, 1), "drew 2"),
        (Do::Put(1, 0x63, 3), "done"),
        (Do::Propose(1), "proposed 1"),
        (Do::Decide(1), "decided 1"),
        (Do::Decide(0), "lost 1 to 2"),
        (Do::Put(0, 0x62, 2), "done"),
        (Do::Put(0, 0x63, 4), "met 2 of 1.1 at 63"),
        (Do::Propose(0), "proposed 2"),
        (Do::Decide(0), "decided 2"),
        (Do::End(0), "done"),
        (Do::Begin(0), "began 2"),
        (Do::Read(0, 0x61, 0), "cells 61=01 62=02 63=03"),
    ],
};

// Where an undecided version lies above a commit that the snapshot does not see, a put meets the undecided one.
const UNDECIDED_ABOVE_A_COMMIT: Run = Run {
    others: 2,
    events: &[
        (Do::Begin(0), "began 0"),
        (Do::Begin(1), "began 0"),
        (Do::Draw(1, 1), "drew 1"),
        (Do::Put(1, 0x61, 1), "done"),
        (Do::Propose(1), "proposed 1"),
        (Do::Decide(1), "decided 1"),
        (Do::End(1), "done"),
        (Do::Begin(2), "began 1"),
        (Do::Draw(2, 1), "drew 2"),
        (Do::Put(2, 0x61, 2), "done"),
        (Do::Draw(0, 1), "drew 3"),
        (Do::Put(0, 0x61, 3), "met 2 of 2.1 at 61"),
        (Do::Unput(2, 0x61), "done"),
        (Do::Put(0, 0x61, 3), "met 1 of 1.1 at 61"),
    ],
};

// A part without a key needs no check.
const ONLY_EMPTY_PARTS: Run = Run {
    others: 0,
    events: &[
        (Do::Begin(0), "began 0"),
        (Do::Read(0, 0x62, 0x62), "cells"),
        (Do::Read(0, 0x63, 0x62), "cells"),
        (Do::Draw(0, 1), "drew 1"),
        (Do::Put(0, 0x62, 1), "done"),
        (Do::Propose(0), "proposed 1"),
        (Do::Decide(0), "decided 1"),
    ],
};

// A commit without a put takes a number as any other does.
const AN_EMPTY_COMMIT: Run = Run {
    others: 1,
    events: &[
        (Do::Begin(0), "began 0"),
        (Do::Draw(0, 1), "drew 1"),
        (Do::Propose(0), "proposed 1"),
        (Do::Decide(0), "decided 1"),
        (Do::End(0), "done"),
        (Do::Begin(1), "began 1"),
        (Do::Read(1, 0x01, 0), "cells"),
        (Do::Draw(1, 1), "drew 2"),
        (Do::Propose(1), "proposed 2"),
    ],
};

// Keys and records of two bytes and more are put, read by another connection, met and checked as those of one are.
// A key stands before each longer one that begins with it.
const SEVERAL_BYTES: Run = Run {
    others: 2,
    events: &[
        (Do::Begin(0), "began 0"),
        (Do::Begin(1), "began 0"),
        (Do::Read(1, 0x6162, 0x6163), "cells"),
        (Do::Draw(0, 1), "drew 1"),
        (Do::Put(0, 0x6162, 0x0a0b), "done"),
        (Do::Put(0, 0x616263, 0x0c0d0e), "done"),
        (Do::PutTombstone(0, 0x6200), "done"),
        (Do::Propose(0), "proposed 1"),
        (Do::Decide(0), "decided 1"),
        (Do::End(0), "done"),
        (Do::Begin(2), "began 1"),
        (Do::Read(2, 0x61, 0), "cells 6162=0a0b 616263=0c0d0e"),
        (Do::Read(2, 0x6162, 0x616263), "cells 6162=0a0b"),
        (Do::Read(2, 0x61620001, 0x6163), "cells 616263=0c0d0e"),
        (Do::Draw(1, 1), "drew 2"),
        (Do::Put(1, 0x6162, 0x0f0f), "met 1 of 0.1 at 6162"),
        (Do::Put(1, 0x6161, 0x0f0f), "done"),
        (Do::Propose(1), "proposed 2"),
        (Do::Check(1, 0x6162, 0x6163), "met 1 of 0.1 at 6162"),
        (Do::Check(1, 0x616200, 0x616263), "done"),
        (Do::Check(1, 0x6163, 0), "met 1 of 0.1 at 6200"),
        (Do::Unput(1, 0x6161), "done"),
        (Do::End(1), "done"),
        (Do::Purge(0x6162), "not now"),
        (Do::Purge(0x6200), "done"),
        (Do::Draw(2, 1), "drew 3"),
        (Do::Put(2, 0x61626364, 0x10203040), "done"),
        (Do::Begin(0), "began 1"),
        (Do::Draw(0, 2), "drew 4"),
        (Do::Put(0, 0x61626364, 0x50), "met 3 of 2.1 at 61626364"),
        (Do::Put(0, 0x616263, 0x50607080), "done"),
        (Do::Propose(0), "proposed 2"),
        (Do::Decide(0), "decided 2"),
        (Do::Begin(1), "began 2"),
        (
            Do::Read(1, 0x6162, 0x6163),
            "cells 6162=0a0b 616263=50607080",
        ),
    ],
};

// The last of four connections begins, puts and commits, and what it put is met. There is none after it.
const FOUR_CONNECTIONS: Run = Run {
    others: 3,
    events: &[
        (Do::Begin(3), "began 0"),
        (Do::Begin(0), "began 0"),
        (Do::Draw(3, 1), "drew 1"),
        (Do::Put(3, 0x61, 1), "done"),
        (Do::Draw(0, 1), "drew 2"),
        (Do::Put(0, 0x61, 2), "met 1 of 3.1 at 61"),
        (Do::Propose(3), "proposed 1"),
        (Do::Decide(3), "decided 1"),
        (Do::Put(0, 0x61, 2), "met 1 of 3.1 at 61"),
        (Do::Begin(1), "began 1"),
        (Do::Read(1, 0x61, 0), "cells 61=01"),
        (Do::Begin(3), "not now"),
        (Do::End(3), "done"),
        (Do::Begin(3), "began 1"),
        (Do::Draw(3, 1), "not now"),
        (Do::Draw(3, 2), "drew 3"),
        (Do::Begin(4), "not now"),
    ],
};

// So it is with 256 connections.
const MANY_CONNECTIONS: Run = Run {
    others: 255,
    events: &[
        (Do::Begin(255), "began 0"),
        (Do::Draw(255, 1), "drew 1"),
        (Do::Put(255, 0x61, 1), "done"),
        (Do::Propose(255), "proposed 1"),
        (Do::Decide(255), "decided 1"),
        (Do::Begin(0), "began 1"),
        (Do::Read(0, 0x61, 0), "cells 61=01"),
        (Do::Begin(256), "not now"),
    ],
};

#[test]
fn each_event_is_answered_by_the_table(rt: HostRuntime) -> Result<(), Fail> {
    let alloc = rt.alloc();
    let runs = [
        ONE_COMMIT,
        WRITE_SKEW,
        UNDER_A_NEWER_ONE,
        LOST_AND_PROPOSED_AGAIN,
        PUTS_MEET,
        TOMBSTONES,
        THE_LEAST_KEY_AND_ITS_NEWEST_COMMIT,
        NOT_ENABLED,
        AN_EMPTY_RECORD,
        A_TOMBSTONE_WITHOUT_A_RECORD,
        CHECKS_AFTER_THE_DECISION,
        TAKEN_OUT_UNDER_A_PROPOSAL,
        PUT_AGAIN,
        PUT_AFTER_LOST,
        UNDECIDED_ABOVE_A_COMMIT,
        ONLY_EMPTY_PARTS,
        AN_EMPTY_COMMIT,
        SEVERAL_BYTES,
        FOUR_CONNECTIONS,
        MANY_CONNECTIONS,
    ];
    for run in runs {
        let mut machine = EventMachine::new(alloc, u32::from(run.others) + 1)?;
        for (what, wanted) in run.events {
            let outcome = machine.step(&event(alloc, *what)?)?;
            assert_eq!(rt; answer(alloc, &outcome)?.as_str(), *wanted);
        }
    }
    Ok(())
}
