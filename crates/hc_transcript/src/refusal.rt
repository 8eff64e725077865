// Why statements are refused.
ghost use Rattle.std.specs.Prelude.{◌≡◌, ◌≤◌, length};
ghost use Rattle.hc_transcript.specs.declared.refusal.Refusal.TheVariants as refusal;

use crate::BoxedKey;
use hc_base::Full;
use hc_lex::LexKind;
use hc_range::LONGEST_KEY;
use hc_value::Str;

/// Why a statement was refused. The numbers are SQLite's result codes.
#[derive(Debug, Drop)]
pub enum Refusal {
    /// 1: no token begins at this byte of the statement.
    Lex { kind: LexKind, at: u32 },
    /// 1: the token at this byte of the statement is one that no statement has there.
    Syntax { at: u32 },
    /// 1: the token at this byte opens one level too many, or is one operator too many.
    TooDeep { at: u32 },
    /// 1: it begins a transaction within a transaction.
    Within,
    /// 1: it ends or marks a transaction where there is none.
    NoTransaction,
    /// 1: no savepoint has this name.
    NoSavepoint(Str),
    /// 1: no table has this name, or FROM has none.
    NoTable(Str),
    /// 1: no index has this name.
    NoIndex(Str),
    /// 1: the name that it would create is in use.
    Exists(Str),
    /// 1: the name is kept for the engine.
    Reserved(Str),
    /// 1: it names this column twice.
    TwoColumns(Str),
    /// 1: the table would have two primary keys.
    TwoKeys,
    /// 1: this table would have too many columns.
    TooManyColumns(Str),
    /// 1: no column has this name.
    NoColumn(Str),
    /// 1: several columns, or several tables of FROM, have this name.
    Ambiguous(Str),
    /// 1: no function has this name.
    NoFunction(Str),
    /// 1: it mixes classes of values.
    Mixed,
    /// 1: an aggregate, or a column outside one, is where none may be.
    Aggregate,
    /// 1: so many values or arguments are given, and another number is wanted.
    Arity { given: u32, wanted: u32 },
    /// 1: ORDER BY names an item by a number that none has.
    NoItem(i64),
    /// 1: with DISTINCT, ORDER BY names what is no item.
    NotItem,
    /// 1: a number is outside the 64 bits of an integer.
    Overflow,
    /// 7, `SQLITE_NOMEM`: an allocation was refused.
    NoMemory,
    /// 13, `SQLITE_FULL`: no further row number is left in this table.
    Rowid(Str),
    /// 13: no further tree number is left.
    Trees,
    /// 13: the commit found something used up.
    Full(Full),
    /// 18, `SQLITE_TOOBIG`: an entry would have this length.
    TooBig(u64),
    /// 517, `SQLITE_BUSY_SNAPSHOT`: another transaction changed this key. It was that of the connection
    /// with this number, and its transaction of this ordinal.
    Busy { conn: u32, ord: u32, key: BoxedKey },
    /// 1299, `SQLITE_CONSTRAINT_NOTNULL`: this column of the table may not be NULL.
    NotNull { table: Str, column: Str },
    /// 1555, `SQLITE_CONSTRAINT_PRIMARYKEY`: a row with this key is there. `name` is the key's column, or
    /// its index.
    Primary { table: Str, name: Str },
    /// 2067, `SQLITE_CONSTRAINT_UNIQUE`: a row with these values is in this index of the table.
    Unique { table: Str, index: Str },
}

impl Refusal {
    /// A conflict over a key, which is copied into the room that was made before. So it takes no memory.
    pub fn busy(room: BoxedKey, conn: u32, ord: u32, key: &[u8]) -> Refusal
        requires { length key.now ≤ LONGEST_KEY }
        ensures { result ≡ refusal.Busy conn ord key.now }
    {
        let key = room.filled(key);
        Refusal::Busy { conn, ord, key }
    }
}
