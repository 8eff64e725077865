// Scripts, and transactions as a script and a transcript show them.
ghost use Rattle.std.specs.Prelude.{◌≡◌, ◌↔◌, ◌+◌, IsTrue};
ghost use Rattle.hc_judge.specs.Turns.{close_as, item_as};

use crate::turn::{Closing, What};
use hc_meaning::Command;
use hc_transcript::{Ending, Reply};
use sqlite_items::Items;
use std::marker::Model;

/// The commands of one connection. Contracts see the `Script` of the definitions.
#[derive(Debug, Drop)]
pub struct Script {
    conn: u32,
    commands: Items<Command>,
}

impl Model for Script {
    ghost use Rattle.hc_ast.specs.contracts.expression.Expr as expr;
    ghost use Rattle.std.specs.Coded.{codes};
    ghost use Rattle.hc_meaning.specs.Runs.Cut.{Script};

    ghost Value = { Script };

    ghost coded = { Prim.hlevel (codes, expr.the_row.coded) };

    ghost view = { λ s. record { conn = s.conn; commands = s.commands } };
}

impl Script {
    /// The commands of the connection with this number, in the order in which they run.
    pub fn new(conn: u32, commands: Items<Command>) -> Script
        ensures { result ≡ record { conn = conn; commands = commands } }
    {
        Script { conn, commands }
    }

    /// The connection's number. The setup is connection 0.
    pub fn conn(&self) -> u32
        ensures { result ≡ self.now.conn }
    {
        self.conn
    }

    /// In the order in which they run.
    pub fn commands(&self) -> &[Command]
        ensures { result.now ≡ self.now.commands }
    {
        self.commands.as_slice()
    }
}

/// A command of a transaction, with its reply. Contracts see the `Item`.
#[derive(Drop)]
pub struct Part<'a> {
    what: What,
    command: &'a Command,
    reply: &'a Reply,
}

impl<'a> Model for Part<'a> {
    ghost use Rattle.hc_ast.specs.contracts.expression.Expr as expr;
    ghost use Rattle.std.specs.Coded.{codes};
    ghost use Rattle.hc_meaning.specs.Runs.Walk.{Item};
    ghost use Rattle.hc_judge.specs.Turns.{item_as};

    ghost Value = { Item };

    ghost coded = { Prim.hlevel (codes, expr.the_row.coded) };

    ghost view = { λ p. item_as p.what p.command.now p.reply.now };
}

impl<'a> Part<'a> {
    pub fn new(what: What, command: &'a Command, reply: &'a Reply) -> Part<'a>
        ensures { result ≡ item_as what command.now reply.now }
    {
        Part {
            what,
            command,
            reply,
        }
    }
}

/// A transaction, named by its connection and by how many that connection had before it. Contracts see the
/// `Transaction`.
#[derive(Drop)]
pub struct Shown<'a> {
    conn: u32,
    before: usize,
    parts: Vec<Part<'a>>,
    closing: Closing<'a>,
    ending: Ending,
}

impl<'a> Model for Shown<'a> {
    ghost use Rattle.hc_ast.specs.contracts.expression.Expr as expr;
    ghost use Rattle.std.specs.Coded.{codes};
    ghost use Rattle.std.specs.Prelude.{◌+◌};
    ghost use Rattle.hc_meaning.specs.Runs.Cut.{Transaction};
    ghost use Rattle.hc_judge.specs.Turns.{close_as};

    ghost Value = { Transaction };

    ghost coded = { Prim.hlevel (codes, expr.the_row.coded) };

    ghost view = { λ t. record {
      conn = t.conn;
      ordinal = t.before + 1;
      items = t.parts.items;
      close = close_as t.closing;
      ending = t.ending;
    } };
}

impl<'a> Shown<'a> {
    pub fn new(
        conn: u32,
        before: usize,
        parts: Vec<Part<'a>>,
        closing: Closing<'a>,
        ending: Ending,
    ) -> Shown<'a>
        ensures { result ≡ record {
          conn = conn;
          ordinal = before + 1;
          items = parts.entry.items;
          close = close_as closing.entry;
          ending = ending;
        } }
    {
        Shown {
            conn,
            before,
            parts,
            closing,
            ending,
        }
    }

    /// The number of its connection.
    pub fn conn(&self) -> u32
        ensures { result ≡ self.now.conn }
    {
        self.conn
    }

    /// How many transactions its connection had before it. Its ordinal is one more.
    pub fn before(&self) -> usize
        ensures { self.now.ordinal ≡ result + 1 }
    {
        self.before
    }

    /// The ending that its reply printed.
    pub fn ending(&self) -> Ending
        ensures { result ≡ self.now.ending }
    {
        self.ending
    }

    /// Its commands with their replies, in order.
    pub fn parts(&self) -> &[Part<'a>]
        ensures { result.now ≡ self.now.items }
    {
        self.parts.as_slice()
    }

    /// How it was closed.
    pub fn closing(&self) -> Closing<'a>
        ensures { close_as result ≡ self.now.close }
    {
        self.closing
    }

    /// Whether it is the transaction of this connection with this ordinal.
    pub fn is_named(&self, conn: u32, ordinal: u32) -> bool
        ensures { IsTrue result ↔ ((self.now.conn ≡ conn) × (self.now.ordinal ≡ ordinal)) }
    {
        self.conn == conn && ordinal > 0 && self.before == (ordinal - 1) as usize
    }
}
