// The table of refusals: each one as its tag with its arguments, and back.
ghost use Rattle.std.specs.Prelude.{◌≡◌};
ghost use Rattle.hc_transcript.specs.Table.{line_of, line_told, bare_of, number_of, name_of, names_of, numbers_of};

use crate::tag::{BareTag, NameTag, NamesTag, NumberTag, NumbersTag, RefusalTag};
use crate::{BoxedKey, Refusal};
use hc_base::{Cid, Full};
use hc_value::Str;

/// A refusal, told by its tag and its arguments.
#[derive(Debug, Clone, Copy)]
pub enum Told<'a> {
    Bare(BareTag),
    Number(NumberTag, u32),
    Name(NameTag, &'a Str),
    Names(NamesTag, &'a Str, &'a Str),
    Numbers(NumbersTag, u32, u32),
    NoItem(i64),
    TooBig(u64),
    Busy(u32, u32, &'a BoxedKey),
}

impl Told<'_> {
    /// Its tag.
    pub fn tag(&self) -> RefusalTag
        ensures { result ≡ (line_told self.now).0 }
    {
        match self {
            Told::Bare(tag) => RefusalTag::Bare(*tag),
            Told::Number(tag, _) => RefusalTag::Number(*tag),
            Told::Name(tag, _) => RefusalTag::Name(*tag),
            Told::Names(tag, _, _) => RefusalTag::Names(*tag),
            Told::Numbers(tag, _, _) => RefusalTag::Numbers(*tag),
            Told::NoItem(_) => RefusalTag::NoItem,
            Told::TooBig(_) => RefusalTag::TooBig,
            Told::Busy(_, _, _) => RefusalTag::Busy,
        }
    }
}

impl Refusal {
    /// Its tag and its arguments.
    pub fn told(&self) -> Told<'_>
        ensures { line_told result ≡ line_of self.now }
    {
        match self {
            Refusal::Lex { kind, at } => Told::Number(NumberTag::Lex(*kind), *at),
            Refusal::Syntax { at } => Told::Number(NumberTag::Syntax, *at),
            Refusal::TooDeep { at } => Told::Number(NumberTag::TooDeep, *at),
            Refusal::Within => Told::Bare(BareTag::Within),
            Refusal::NoTransaction => Told::Bare(BareTag::NoTransaction),
            Refusal::NoSavepoint(savepoint) => Told::Name(NameTag::NoSavepoint, savepoint),
            Refusal::NoTable(table) => Told::Name(NameTag::NoTable, table),
            Refusal::NoIndex(index) => Told::Name(NameTag::NoIndex, index),
            Refusal::Exists(used) => Told::Name(NameTag::Exists, used),
            Refusal::Reserved(kept) => Told::Name(NameTag::Reserved, kept),
            Refusal::TwoColumns(column) => Told::Name(NameTag::TwoColumns, column),
            Refusal::TwoKeys => Told::Bare(BareTag::TwoKeys),
            Refusal::TooManyColumns(table) => Told::Name(NameTag::TooManyColumns, table),
            Refusal::NoColumn(column) => Told::Name(NameTag::NoColumn, column),
            Refusal::Ambiguous(column) => Told::Name(NameTag::Ambiguous, column),
            Refusal::NoFunction(function) => Told::Name(NameTag::NoFunction, function),
            Refusal::Mixed => Told::Bare(BareTag::Mixed),
            Refusal::Aggregate => Told::Bare(BareTag::Aggregate),
            Refusal::Arity { given, wanted } => Told::Numbers(NumbersTag::Arity, *given, *wanted),
            Refusal::NoItem(item) => Told::NoItem(*item),
            Refusal::NotItem => Told::Bare(BareTag::NotItem),
            Refusal::Overflow => Told::Bare(BareTag::Overflow),
            Refusal::NoMemory => Told::Bare(BareTag::NoMemory),
            Refusal::Rowid(table) => Told::Name(NameTag::Rowid, table),
            Refusal::Trees => Told::Bare(BareTag::Trees),
            Refusal::Full(Full::Pages { count, floor }) => {
                Told::Numbers(NumbersTag::Pages, *count, floor.0)
            }
            Refusal::Full(Full::Numbers(limit)) => Told::Number(NumberTag::Numbers, *limit),
            Refusal::Full(Full::Transactions(limit)) => {
                Told::Number(NumberTag::Transactions, *limit)
            }
            Refusal::TooBig(length) => Told::TooBig(*length),
            Refusal::Busy { conn, ord, key } => Told::Busy(*conn, *ord, key),
            Refusal::NotNull { table, column } => Told::Names(NamesTag::NotNull, table, column),
            Refusal::Primary { table, name } => Told::Names(NamesTag::Primary, table, name),
            Refusal::Unique { table, index } => Told::Names(NamesTag::Unique, table, index),
        }
    }
}

/// The refusal with this tag.
pub fn bare_of(tag: BareTag) -> Refusal
    ensures { result ≡ bare_of tag }
{
    match tag {
        BareTag::Within => Refusal::Within,
        BareTag::NoTransaction => Refusal::NoTransaction,
        BareTag::TwoKeys => Refusal::TwoKeys,
        BareTag::Mixed => Refusal::Mixed,
        BareTag::Aggregate => Refusal::Aggregate,
        BareTag::NotItem => Refusal::NotItem,
        BareTag::Overflow => Refusal::Overflow,
        BareTag::NoMemory => Refusal::NoMemory,
        BareTag::Trees => Refusal::Trees,
    }
}

/// The refusal with this tag and this number.
pub fn number_of(tag: NumberTag, n: u32) -> Refusal
    ensures { result ≡ number_of tag n }
{
    match tag {
        NumberTag::Lex(kind) => Refusal::Lex { kind, at: n },
        NumberTag::Syntax => Refusal::Syntax { at: n },
        NumberTag::TooDeep => Refusal::TooDeep { at: n },
        NumberTag::Numbers => Refusal::Full(Full::Numbers(n)),
        NumberTag::Transactions => Refusal::Full(Full::Transactions(n)),
    }
}

/// The refusal with this tag and this name.
pub fn name_of(tag: NameTag, name: Str) -> Refusal
    ensures { result ≡ name_of tag name }
{
    match tag {
        NameTag::NoSavepoint => Refusal::NoSavepoint(name),
        NameTag::NoTable => Refusal::NoTable(name),
        NameTag::NoIndex => Refusal::NoIndex(name),
        NameTag::Exists => Refusal::Exists(name),
        NameTag::Reserved => Refusal::Reserved(name),
        NameTag::TwoColumns => Refusal::TwoColumns(name),
        NameTag::TooManyColumns => Refusal::TooManyColumns(name),
        NameTag::NoColumn => Refusal::NoColumn(name),
        NameTag::Ambiguous => Refusal::Ambiguous(name),
        NameTag::NoFunction => Refusal::NoFunction(name),
        NameTag::Rowid => Refusal::Rowid(name),
    }
}

/// The refusal with this tag and these names.
pub fn names_of(tag: NamesTag, table: Str, name: Str) -> Refusal
    ensures { result ≡ names_of tag table name }
{
    match tag {
        NamesTag::NotNull => {
            let column = name;
            Refusal::NotNull { table, column }
        }
        NamesTag::Primary => Refusal::Primary { table, name },
        NamesTag::Unique => {
            let index = name;
            Refusal::Unique { table, index }
        }
    }
}

/// The refusal with this tag and these numbers.
pub fn numbers_of(tag: NumbersTag, first: u32, second: u32) -> Refusal
    ensures { result ≡ numbers_of tag first second }
{
    match tag {
        NumbersTag::Arity => Refusal::Arity {
            given: first,
            wanted: second,
        },
        NumbersTag::Pages => Refusal::Full(Full::Pages {
            count: first,
            floor: Cid(second),
        }),
    }
}
