// A connection's transcript, cut into transactions.
ghost use Rattle.std.specs.Prelude.{◌≡◌, ◌↔◌, ◌+◌, ◌<◌, ◌++◌, [], ◌∷◌, IfOk, IsSome, IsTrue, List, MatchOption, None, drop, is_some, length, option_map};
ghost use Rattle.hc_meaning.specs.Runs.Cut.{Transaction, is_over, items_of, stray_answer};
ghost use Rattle.hc_meaning.specs.Runs.Walk.{answer_in};
ghost use Rattle.hc_judge.specs.Cuts.{IsCutInto, Leads};
ghost use Rattle.hc_judge.specs.Turns.{move_as};

use crate::shown::{Part, Script, Shown};
use crate::turn::{Turn, make_turn};
use hc_meaning::Command;
use hc_transcript::{Line, Refusal, Reply, Transcript};
use hc_value::NoMemory;
use std::alloc::Global;
use std::marker::Model;

// Where the walk over a transcript is.
#[derive(Drop)]
struct Walk<'a> {
    conn: u32,
    closed: Vec<Shown<'a>>,
    opened: Option<Vec<Part<'a>>>,
}

impl<'a> Model for Walk<'a> {
    ghost use Rattle.hc_ast.specs.contracts.expression.Expr as expr;
    ghost use Rattle.std.specs.Coded.{codes};
    ghost use Rattle.std.specs.Prelude.{option_map};
    ghost use Rattle.hc_judge.specs.Cuts.{Place};

    ghost Value = { Place };

    ghost coded = { Prim.hlevel (codes, expr.the_row.coded) };

    ghost view = { λ w. record { conn = w.conn; closed = w.closed.items; opened = option_map (λ parts. parts.items) w.opened } };
}

impl<'a> Walk<'a> {
    fn new(alloc: Global, conn: u32) -> Walk<'a>
        ensures { result ≡ record { conn = conn; closed = []; opened = None } }
    {
        Walk {
            conn,
            closed: Vec::new(alloc),
            opened: None,
        }
    }

    fn is_open(&self) -> bool
        ensures { result ≡ is_some self.now.opened }
    {
        self.opened.is_some()
    }

    // Goes on by what a reply says. It cannot where the reply is not of the form.
    fn step(
        &mut self,
        alloc: Global,
        turn: Turn<'a>,
        command: &'a Command,
        reply: &'a Reply,
    ) -> Result<bool, NoMemory>
        ensures { IfOk result (λ goes. Leads goes self.old command.now (move_as turn.entry command.now reply.now) self.new) }
    {
        match turn {
            Turn::LeavesOut => Ok(true),
            Turn::Outside => Ok(is_stray(command, reply)),
            Turn::Belongs(what) => {
                let parts = with_part(alloc, self.opened.take(), Part::new(what, command, reply))?;
                self.opened = Some(parts);
                Ok(true)
            }
            Turn::Closes(what, closing, ending) => {
                let parts = with_part(alloc, self.opened.take(), Part::new(what, command, reply))?;
                let before = self.closed.len();
                self.closed
                    .push(Shown::new(self.conn, before, parts, closing, ending))?;
                Ok(true)
            }
            Turn::Misses => Ok(false),
        }
    }

    // The transactions, where none is open.
    fn into_closed(self) -> Option<Vec<Shown<'a>>>
        ensures { MatchOption result (IsSome self.entry.opened) (λ closed. (self.entry.opened ≡ None) × (closed.items ≡ self.entry.closed)) }
    {
        match self.opened {
            Some(_) => None,
            None => Some(self.closed),
        }
    }
}

// The parts of a transaction that is open, or of none, and one more.
fn with_part<'a>(
    alloc: Global,
    opened: Option<Vec<Part<'a>>>,
    part: Part<'a>,
) -> Result<Vec<Part<'a>>, NoMemory>
    ensures { IfOk result (λ parts. parts.items ≡ items_of (option_map (λ parts. parts.items) opened.entry) ++ part.entry ∷ []) }
{
    let mut parts = match opened {
        Some(parts) => parts,
        None => Vec::new(alloc),
    };
    parts.push(part)?;
    Ok(parts)
}

// Whether a reply refuses a command that is in no transaction: for its own fault, or since there is no transaction.
fn is_stray(command: &Command, reply: &Reply) -> bool
    ensures { IsTrue result ↔ (answer_in reply.now ≡ stray_answer command.now) }
{
    reply.rows.is_empty() && is_stray_line(command, &reply.last)
}

fn is_stray_line(command: &Command, last: &Line) -> bool
    ensures { IsTrue result ↔ (record { rows = []; last = last.now } ≡ stray_answer command.now) }
{
    match last {
        Line::Ok(_) => false,
        Line::Error(refusal) => match command {
            Command::Fault(fault) => refusal.is_same(fault),
            _ => refusal.is_same(&Refusal::NoTransaction),
        },
    }
}

// Whether no command comes after this place.
fn is_last(at: usize, commands: &[Command]) -> bool
    requires { at < length commands.now }
    ensures { result ≡ is_over (drop (at + 1) commands.now) }
{
    if at + 1 < commands.len() {
        return false;
    }
    true
}

/// The transactions of a connection, or `None` where its replies are not cut into any.
pub fn cut<'a>(
    alloc: Global,
    script: &'a Script,
    transcript: &'a Transcript,
) -> Result<Option<Vec<Shown<'a>>>, NoMemory>
    requires { length script.now.commands ≡ length transcript.now.replies }
    ensures { IfOk result (λ found. MatchOption found
        ((ts : List Transaction) → IsCutInto script.now transcript.now ts → ⊥)
        (λ ts. IsCutInto script.now transcript.now ts.items)) }
{
    let commands = script.commands();
    let replies = transcript.replies.as_slice();
    let mut walk = Walk::new(alloc, script.conn());
    for (at, command) in commands.iter().enumerate() {
        let reply = &replies[at];
        let said = make_turn(walk.is_open(), is_last(at, commands), command, reply);
        if !walk.step(alloc, said, command, reply)? {
            return Ok(None);
        }
    }
    Ok(walk.into_closed())
}
