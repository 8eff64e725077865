// A transaction as a script and a transcript show it.
ghost use Rattle.std.specs.Prelude.{◌≡◌, ◌↔◌, [], ◌∷◌, IfOk, IsTrue};
ghost use Rattle.hc_meaning.specs.Run.{answer_of, run_all};
ghost use Rattle.hc_meaning.specs.Transactions.{own};

use crate::reference::comparison::{is_answer_of, same_lines};
use crate::reference::execution;
use crate::{Ran, Statement};
use hc_transcript::{Ending, Reply};
use hc_value::NoMemory;
use std::alloc::Global;
use std::marker::Model;

/// A transaction of one statement, which is in a script, with its reply, which is in a
/// transcript. Contracts see the `Transaction`.
#[derive(Drop)]
pub struct Shown<'a> {
    conn: u32,
    ordinal: u32,
    statement: &'a Statement,
    reply: &'a Reply,
    ending: Ending,
}

impl<'a> Model for Shown<'a> {
    ghost use Rattle.std.specs.Prelude.{[], ◌∷◌};
    ghost use Rattle.hc_meaning.specs.Run.{answer_of};
    ghost use Rattle.hc_meaning.specs.declared.transaction.Transaction.{Transaction};

    ghost Value = { Transaction };

    ghost view = { λ shown. record {
      conn = shown.conn;
      ordinal = shown.ordinal;
      statements = shown.statement.now ∷ [];
      answers = answer_of shown.reply.now ∷ [];
      ending = shown.ending;
    } };
}

impl<'a> Shown<'a> {
    /// A statement with its reply as a transaction of its own.
    pub fn own(
        conn: u32,
        ordinal: u32,
        statement: &'a Statement,
        reply: &'a Reply,
        ending: Ending,
    ) -> Shown<'a>
        ensures { result ≡ own conn ordinal statement.now reply.now ending }
    {
        Shown {
            conn,
            ordinal,
            statement,
            reply,
            ending,
        }
    }

    /// The same transaction once more.
    pub fn again(&self) -> Shown<'a>
        ensures { result ≡ self.now }
    {
        Shown {
            conn: self.conn,
            ordinal: self.ordinal,
            statement: self.statement,
            reply: self.reply,
            ending: self.ending,
        }
    }

    /// The number of its connection.
    pub fn conn(&self) -> u32
        ensures { result ≡ self.now.conn }
    {
        self.conn
    }

    /// Its place among the transactions of its connection.
    pub fn ordinal(&self) -> u32
        ensures { result ≡ self.now.ordinal }
    {
        self.ordinal
    }

    /// The ending that its reply printed.
    pub fn ending(&self) -> Ending
        ensures { result ≡ self.now.ending }
    {
        self.ending
    }

    /// What its statements answer on a database, and the database after them.
    pub fn run_on(&self, alloc: Global, db: &[(i64, i64)]) -> Result<Ran, NoMemory>
        ensures { IfOk result (λ ran. ran ≡ run_all db.now self.now.statements) }
    {
        execution::run_all(alloc, db, &[*self.statement])
    }

    /// Whether its replies are these answers.
    pub fn answered(&self, ran: &Ran) -> bool
        ensures { IsTrue result ↔ (ran.now.answers ≡ self.now.answers) }
    {
        match ran.answers.as_slice() {
            [answer] => is_answer_of(answer, self.reply),
            _ => false,
        }
    }

    /// Whether it is the same transaction.
    pub fn is_same(&self, other: &Shown<'a>) -> bool
        ensures { IsTrue result ↔ (self.now ≡ other.now) }
    {
        self.conn == other.conn
            && self.ordinal == other.ordinal
            && *self.statement == *other.statement
            && same_lines(self.reply, other.reply)
            && self.ending == other.ending
    }
}
