// What was read of an output so far, and one line more.
ghost use Rattle.std.specs.Prelude.{◌≡◌, IfOk, IfErr, OnOk};
ghost use Rattle.hc_reply.specs.declared.fault.ReplyFault.TheVariants.{NoMemory};
ghost use Rattle.hc_reply.specs.ParserStates.{allowed_of, finish, is_whole, low_of, start, step, with_ending};

use crate::allowed::Allowed;
use crate::fault::ReplyFault;
use crate::output_line::OutputLine;
use crate::{Ending, Reply, Row, Transcript};
use sqlite_items::Items;
use std::alloc::Global;
use std::mem;

/// Whole transcripts, and the parts of the one that is still open.
#[derive(Debug, Drop)]
pub struct ParserState {
    /// The transcripts before the open one.
    pub done: Items<Transcript>,
    /// The open one's connection.
    pub conn: Option<u32>,
    /// Its replies.
    pub replies: Items<Reply>,
    /// The rows that were read of the next reply.
    pub rows: Items<Row>,
    /// Whether the last line of a reply was read just before.
    pub may_end: bool,
}

/// Before the first line.
pub fn start(alloc: Global) -> ParserState
    ensures { result ≡ start }
{
    ParserState {
        done: Items::new(alloc),
        conn: None,
        replies: Items::new(alloc),
        rows: Items::new(alloc),
        may_end: false,
    }
}

/// Whether the output may end here.
pub fn is_whole(state: &ParserState) -> bool
    ensures { result ≡ is_whole state.now }
{
    if state.conn.is_none() {
        return true;
    }
    match (state.rows.as_slice(), state.replies.as_slice()) {
        ([], [_, ..]) => true,
        _ => false,
    }
}

/// The least number of the next connection.
pub fn low_of(state: &ParserState) -> u64
    ensures { result ≡ low_of state.now }
{
    match state.conn {
        None => 0,
        Some(conn) => u64::from(conn) + 1,
    }
}

/// The lines that may come next.
pub fn allowed_of(state: &ParserState) -> Allowed
    ensures { result ≡ allowed_of state.now }
{
    Allowed {
        conn: low_of(state) < 4_294_967_296 && is_whole(state),
        reply: state.conn.is_some(),
        ending: state.may_end,
    }
}

/// The transcripts that were read.
pub fn finish(state: ParserState) -> Result<Items<Transcript>, ReplyFault>
    ensures all { IfOk result (λ transcripts. transcripts ≡ finish state) }
    ensures no_memory { IfErr result (λ fault. fault ≡ NoMemory) }
{
    let ParserState {
        mut done,
        conn,
        replies,
        ..
    } = state;
    if let Some(conn) = conn {
        done.push(Transcript { conn, replies })?;
    }
    Ok(done)
}

// Gives the last reply this ending.
fn end_last(replies: &mut Items<Reply>, ending: Ending) -> Result<(), ReplyFault>
    ensures after { OnOk result (replies.new ≡ with_ending replies.old ending) }
    ensures no_memory { IfErr result (λ fault. fault ≡ NoMemory) }
{
    let Some(last) = replies.pop() else {
        return Ok(());
    };
    let Reply { rows, last, .. } = last;
    replies.push(Reply {
        rows,
        last,
        ending: Some(ending),
    })?;
    Ok(())
}

/// One line more.
pub fn step(alloc: Global, state: &mut ParserState, line: OutputLine) -> Result<(), ReplyFault>
    ensures after { OnOk result (state.new ≡ step state.old line) }
    ensures no_memory { IfErr result (λ fault. fault ≡ NoMemory) }
{
    match line {
        OutputLine::Conn(number) => {
            let before = mem::replace(state, start(alloc));
            state.done = finish(before)?;
            state.conn = Some(number);
        }
        OutputLine::Row(row) => {
            state.rows.push(row)?;
            state.may_end = false;
        }
        OutputLine::Last(last) => {
            let rows = mem::replace(&mut state.rows, Items::new(alloc));
            let ending = None;
            state.replies.push(Reply { rows, last, ending })?;
            state.may_end = true;
        }
        OutputLine::Ending(ending) => {
            end_last(&mut state.replies, ending)?;
            state.may_end = false;
        }
    }
    Ok(())
}
