// Scripts with their transcripts, cut into transactions.
ghost use Rattle.std.specs.Prelude.{◌≡◌, ◌^◌, ◌<◌, All, IfOk, length, option_map};
ghost use Rattle.hc_meaning.specs.Transactions.{cut, cut_all, cut_one, may_end, own_if_ended};

use crate::reference::shown::Shown;
use crate::{Script, Statement};
use hc_transcript::{Ending, Line, Reply, Transcript};
use hc_value::NoMemory;
use std::alloc::Global;

/// All connections' transactions, by connection, or `None` where the transcripts are not those of the
/// scripts: each connection with a statement has one, in the order of the connections, and no other has
/// one.
pub fn cut_all<'a>(
    alloc: Global,
    scripts: &'a [Script],
    transcripts: &'a [Transcript],
) -> Result<Option<Vec<Shown<'a>>>, NoMemory>
    requires { All (λ script. length script.statements < 2 ^ 32) scripts.now }
    ensures { IfOk result (λ found. option_map (λ transactions. transactions.items) found
        ≡ cut_all scripts.now transcripts.now) }
{
    let mut transactions = Vec::new(alloc);
    let mut at = 0;
    for script in scripts {
        if script.statements.is_empty() {
            continue;
        }
        let Some(transcript) = transcripts.get(at) else {
            return Ok(None);
        };
        let Some(mut found) = cut_one(alloc, script, transcript)? else {
            return Ok(None);
        };
        transactions.append(&mut found)?;
        at += 1;
    }
    if at < transcripts.len() {
        return Ok(None);
    }
    Ok(Some(transactions))
}

// A connection's transcript, if it is one of this script.
fn cut_one<'a>(
    alloc: Global,
    script: &'a Script,
    transcript: &'a Transcript,
) -> Result<Option<Vec<Shown<'a>>>, NoMemory>
    requires { length script.now.statements < 2 ^ 32 }
    ensures { IfOk result (λ found. option_map (λ transactions. transactions.items) found
        ≡ cut_one script.now transcript.now) }
{
    if script.conn != transcript.conn {
        return Ok(None);
    }
    cut(
        alloc,
        script.conn,
        script.statements.as_slice(),
        transcript.replies.as_slice(),
    )
}

/// The transactions of a connection, or `None` where the replies are not those of its statements
/// or an ending is missing or of another form.
pub fn cut<'a>(
    alloc: Global,
    conn: u32,
    statements: &'a [Statement],
    replies: &'a [Reply],
) -> Result<Option<Vec<Shown<'a>>>, NoMemory>
    requires { length statements.now < 2 ^ 32 }
    ensures { IfOk result (λ found. option_map (λ transactions. transactions.items) found
        ≡ cut conn 1 statements.now replies.now) }
{
    let mut transactions = Vec::new(alloc);
    for (at, reply) in replies.iter().enumerate() {
        let Some(statement) = statements.get(at) else {
            return Ok(None);
        };
        let Some(transaction) = own_if_ended(conn, at as u32 + 1, statement, reply) else {
            return Ok(None);
        };
        transactions.push(transaction)?;
    }
    if replies.len() < statements.len() {
        return Ok(None);
    }
    Ok(Some(transactions))
}

// The statement as a transaction of its own, if its reply has an ending that it may have.
fn own_if_ended<'a>(
    conn: u32,
    ordinal: u32,
    statement: &'a Statement,
    reply: &'a Reply,
) -> Option<Shown<'a>>
    ensures { result ≡ own_if_ended conn ordinal statement.now reply.now reply.now.ending }
{
    let ending = reply.ending?;
    if !may_end(&reply.last, ending) {
        return None;
    }
    Some(Shown::own(conn, ordinal, statement, reply, ending))
}

fn may_end(last: &Line, ending: Ending) -> bool
    ensures { result ≡ may_end last.now ending }
{
    match (last, ending) {
        (Line::Ok(_), Ending::Commit(_) | Ending::Snapshot(_)) => true,
        (Line::Error(_), Ending::RolledBack(_)) => true,
        _ => false,
    }
}
