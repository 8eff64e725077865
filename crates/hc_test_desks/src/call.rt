// The calls of a desk as values.
ghost use Rattle.std.specs.Prelude.{IfOk, OnOk};
ghost use Rattle.hc_core.specs.Desk.{GoesOn};
ghost use Rattle.hc_test_desks.specs.Guarded.{IsGuarded};

use crate::guard::{Answer, Guard};
use hc_core::{CutDesk, Desk, Next, NoMemory, Part, Write};
use hc_range::{Bytes, KeyBuf, Range};
use std::alloc::Global;

/// A call of a desk.
#[derive(Debug, Drop)]
pub enum Call {
    Begin,
    /// Reads a range from its lower end on, in as many calls as it takes.
    Read(Range),
    /// Reads a range from a key in it on.
    ReadFrom(Bytes, Range),
    Last(Range),
    Reserve(u32, Vec<Write>),
    /// Puts the write at a place of those for which there is room.
    Put(usize),
    Propose,
    /// Checks a range from its lower end on, in as many calls as it takes.
    Check(Range),
    /// Checks a range from a key in it on.
    CheckFrom(Bytes, Range),
    Decide,
    Unput(Bytes),
    End,
}

// In how many calls a range is read or checked at most.
const MOST_PARTS: u32 = 8;

// The key from which a further call goes on, if there is more.
fn next_key(alloc: Global, answer: &Answer) -> Result<Option<Bytes>, NoMemory> {
    match answer {
        Answer::Read(Next::More(key)) | Answer::Checked(Next::More(key)) => {
            Ok(Some(Bytes::from_slice(alloc, key.as_slice())?))
        }
        _ => Ok(None),
    }
}

fn read_all<D: Desk>(
    guard: &mut Guard,
    desk: &mut D,
    alloc: Global,
    first: &[u8],
    range: &Range,
    out: &mut Part,
) -> Result<Answer, NoMemory>
    requires { IsGuarded guard.old (D.account desk.old) }
    ensures guarded { OnOk result (IsGuarded guard.new (D.account desk.new)) }
    ensures on { GoesOn D.conn D.most D.seen D.later desk.old desk.new }
{
    let mut from = Bytes::from_slice(alloc, first)?;
    for turn in 0..MOST_PARTS {
        let answer = guard.read_part(desk, alloc, from.as_slice(), range, out)?;
        match next_key(alloc, &answer)? {
            Some(key) => from = key,
            None => return Ok(answer),
        }
    }
    Ok(Answer::NotNow)
}

fn check_all<D: Desk>(
    guard: &mut Guard,
    desk: &mut D,
    alloc: Global,
    first: &[u8],
    range: &Range,
) -> Result<Answer, NoMemory>
    requires { IsGuarded guard.old (D.account desk.old) }
    ensures guarded { OnOk result (IsGuarded guard.new (D.account desk.new)) }
    ensures on { GoesOn D.conn D.most D.seen D.later desk.old desk.new }
{
    let mut from = Bytes::from_slice(alloc, first)?;
    for turn in 0..MOST_PARTS {
        let answer = guard.check_part(desk, alloc, from.as_slice(), range)?;
        match next_key(alloc, &answer)? {
            Some(key) => from = key,
            None => return Ok(answer),
        }
    }
    Ok(Answer::NotNow)
}

/// Makes a call through a desk, where it may be made.
pub fn make_call<D: Desk>(
    guard: &mut Guard,
    desk: &mut D,
    alloc: Global,
    call: Call,
    out: &mut Part,
) -> Result<Answer, NoMemory>
    requires { IsGuarded guard.old (D.account desk.old) }
    ensures guarded { OnOk result (IsGuarded guard.new (D.account desk.new)) }
    ensures on { GoesOn D.conn D.most D.seen D.later desk.old desk.new }
{
    match call {
        Call::Begin => Ok(guard.begin(desk)),
        Call::Read(range) => read_all(guard, desk, alloc, range.lo.as_slice(), &range, out),
        Call::ReadFrom(from, range) => read_all(guard, desk, alloc, from.as_slice(), &range, out),
        Call::Last(range) => guard.last(desk, alloc, &range, out),
        Call::Reserve(ord, writes) => Ok(guard.reserve(desk, alloc, ord, writes)),
        Call::Put(place) => guard.put(desk, alloc, place),
        Call::Propose => Ok(guard.propose(desk)),
        Call::Check(range) => check_all(guard, desk, alloc, range.lo.as_slice(), &range),
        Call::CheckFrom(from, range) => check_all(guard, desk, alloc, from.as_slice(), &range),
        Call::Decide => Ok(guard.decide(desk)),
        Call::Unput(key) => guard.unput(desk, alloc, key.as_slice()),
        Call::End => Ok(guard.end(desk)),
    }
}

/// Makes a call through a desk that cuts ranges at keys, over this one, where it may be made.
pub fn make_cut_call<D: Desk + Drop>(
    guard: &mut Guard,
    desk: D,
    alloc: Global,
    call: Call,
    out: &mut Part,
    keys: &[KeyBuf],
) -> Result<(D, Answer), NoMemory>
    requires { IsGuarded guard.old (D.account desk) }
    ensures guarded { IfOk result (λ r. IsGuarded guard.new (D.account r.0)) }
    ensures on { IfOk result (λ r. GoesOn D.conn D.most D.seen D.later desk r.0) }
{
    let mut cut = CutDesk::new(alloc, desk, keys)?;
    let answer = make_call(guard, &mut cut, alloc, call, out)?;
    Ok((cut.into_inner(), answer))
}
