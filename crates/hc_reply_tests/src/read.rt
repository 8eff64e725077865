// What is read of outputs, and of other bytes. Places of faults were worked out by hand from the output form.
ghost use Rattle.std.specs.Prelude.{IfOk};
ghost use Rattle.hc_transcript.specs.Outputs.{AreTranscripts};

use hc_reply::{Line, Reply, ReplyFault, Transcript, print, read};
use hc_text::Bytes;
use hc_value::{NoMemory, Value};
use sqlite_items::Items;
use std::alloc::Global;

// What was read. Over a type that it does not know, a function's proof has a drop as one step.
pub trait Answers {
    ghost are: { Self → Type 0 };

    fn printed(&self, alloc: Global) -> Result<Bytes, NoMemory>
        requires { are self.now };

    fn all(&self) -> &[Transcript];
}

impl Answers for Items<Transcript> {
    ghost are = { AreTranscripts };

    fn printed(&self, alloc: Global) -> Result<Bytes, NoMemory> {
        print(alloc, self.as_slice())
    }

    fn all(&self) -> &[Transcript] {
        self.as_slice()
    }
}

// The place of the bytes' fault; nothing where they are read, or memory is short.
pub fn fault(alloc: Global, bytes: &[u8]) -> Option<u64> {
    place(read(alloc, bytes))
}

pub fn place<A: Drop>(found: Result<A, ReplyFault>) -> Option<u64> {
    match found {
        Err(ReplyFault::Bad { at }) => Some(at),
        _ => None,
    }
}

// Whether the bytes are read, and printed again as they are.
pub fn is_output(alloc: Global, bytes: &[u8]) -> Result<bool, NoMemory> {
    is_printed(alloc, read(alloc, bytes), bytes)
}

fn is_printed<A: Answers + Drop>(
    alloc: Global,
    found: Result<A, ReplyFault>,
    bytes: &[u8],
) -> Result<bool, NoMemory>
    requires { IfOk found A.are }
{
    match found {
        Ok(answers) => Ok(answers.printed(alloc)?.as_slice() == bytes),
        Err(_) => Ok(false),
    }
}

// How many connections were read.
pub fn connections<A: Answers + Drop>(found: Result<A, ReplyFault>) -> Option<usize> {
    match found {
        Ok(answers) => Some(answers.all().len()),
        Err(_) => None,
    }
}

// Whether the first row that was read begins with the value.
pub fn begins_with_value<A: Answers + Drop>(found: Result<A, ReplyFault>, value: &Value) -> bool {
    match found {
        Ok(answers) => first_value(answers.all()) == Some(value),
        Err(_) => false,
    }
}

fn first_value(all: &[Transcript]) -> Option<&Value> {
    let row = first_reply(all)?.rows.as_slice().first()?;
    row.values.as_slice().first()
}

fn first_reply(all: &[Transcript]) -> Option<&Reply> {
    all.first()?.replies.as_slice().first()
}

// Whether the replies that were read are these refusals, in order.
pub fn are_refusals<A: Answers + Drop>(found: Result<A, ReplyFault>, given: &[Reply]) -> bool {
    match found {
        Ok(answers) => are_same(first_replies(answers.all()), given),
        Err(_) => false,
    }
}

pub fn first_replies(all: &[Transcript]) -> &[Reply] {
    match all {
        [first, ..] => first.replies.as_slice(),
        [] => &[],
    }
}

fn are_same(found: &[Reply], given: &[Reply]) -> bool {
    match (found, given) {
        ([], []) => true,
        ([a, found @ ..], [b, given @ ..]) => is_same(&a.last, &b.last) && are_same(found, given),
        _ => false,
    }
}

fn is_same(found: &Line, given: &Line) -> bool {
    match (found, given) {
        (Line::Error(a), Line::Error(b)) => a.is_same(b),
        _ => false,
    }
}

// The output with one reply: it is refused by a change of a key of so many bytes.
pub fn busy(alloc: Global, length: u32) -> Result<Vec<u8>, NoMemory> {
    let mut out = Vec::from_slice(alloc, b"conn 0\nerror 517 conn 1 txn 1 key X'")?;
    for _ in 0..length {
        out.extend_from_slice(b"0A")?;
    }
    out.extend_from_slice(b"'\n")?;
    Ok(out)
}
