// Each refusal, in the order of the table, is printed as the text that was written out by hand, and read again
// as what it was. Numbers are at the ends of their ranges, and names have a quote and a line feed.
ghost use Rattle.std.specs.Prelude.{length, ◌≤◌};

use super::printed::{Made, Printed, alone};
use super::read::{Answers, are_refusals, first_replies, is_output};
use hc_base::{Cid, Full};
use hc_lex::LexKind;
use hc_reply::{BoxedKey, Line, Refusal, Reply, read};
use hc_value::{NoMemory, Str};
use sqlite_items::Items;
use std::alloc::Global;
use std::test::Fail;

fn name(alloc: Global) -> Result<Str, NoMemory> {
    Str::from_text(alloc, "a\n'b")
}

fn add(alloc: Global, to: &mut Items<Reply>, refusal: Refusal) -> Result<(), NoMemory> {
    let reply = Reply {
        rows: Items::new(alloc),
        last: Line::Error(refusal),
        ending: None,
    };
    to.push(reply)
}

const LEXING: &str = "error 1 lex Char at 0\nerror 1 lex OpenText at 4294967295\n\
    error 1 lex BadBlob at 0\nerror 1 lex TooLarge at 4294967295\nerror 1 syntax at 4294967295\n\
    error 1 too deep at 0\nerror 1 within a transaction\nerror 1 no transaction\n";

fn add_lexing(alloc: Global, to: &mut Items<Reply>) -> Result<(), NoMemory> {
    add_lex(alloc, to, LexKind::Char, 0)?;
    add_lex(alloc, to, LexKind::OpenText, u32::MAX)?;
    add_lex(alloc, to, LexKind::BadBlob, 0)?;
    add_lex(alloc, to, LexKind::TooLarge, u32::MAX)?;
    add(alloc, to, Refusal::Syntax { at: u32::MAX })?;
    add(alloc, to, Refusal::TooDeep { at: 0 })?;
    add(alloc, to, Refusal::Within)?;
    add(alloc, to, Refusal::NoTransaction)
}

fn add_lex(alloc: Global, to: &mut Items<Reply>, kind: LexKind, at: u32) -> Result<(), NoMemory> {
    add(alloc, to, Refusal::Lex { kind, at })
}

const NAMES: &str = "error 1 no savepoint 'a\n''b'\nerror 1 no table 'a\n''b'\n\
    error 1 no index 'a\n''b'\nerror 1 exists 'a\n''b'\nerror 1 reserved 'a\n''b'\n\
    error 1 two columns 'a\n''b'\n";

fn add_names(alloc: Global, to: &mut Items<Reply>) -> Result<(), NoMemory> {
    add(alloc, to, Refusal::NoSavepoint(name(alloc)?))?;
    add(alloc, to, Refusal::NoTable(name(alloc)?))?;
    add(alloc, to, Refusal::NoIndex(name(alloc)?))?;
    add(alloc, to, Refusal::Exists(name(alloc)?))?;
    add(alloc, to, Refusal::Reserved(name(alloc)?))?;
    add(alloc, to, Refusal::TwoColumns(name(alloc)?))
}

const COLUMNS: &str = "error 1 two keys\nerror 1 too many columns 'a\n''b'\n\
    error 1 no column 'a\n''b'\nerror 1 ambiguous 'a\n''b'\nerror 1 no function 'a\n''b'\n\
    error 1 mixed classes\nerror 1 aggregate\n";

fn add_columns(alloc: Global, to: &mut Items<Reply>) -> Result<(), NoMemory> {
    add(alloc, to, Refusal::TwoKeys)?;
    add(alloc, to, Refusal::TooManyColumns(name(alloc)?))?;
    add(alloc, to, Refusal::NoColumn(name(alloc)?))?;
    add(alloc, to, Refusal::Ambiguous(name(alloc)?))?;
    add(alloc, to, Refusal::NoFunction(name(alloc)?))?;
    add(alloc, to, Refusal::Mixed)?;
    add(alloc, to, Refusal::Aggregate)
}

const NUMBERS: &str = "error 1 arity 4294967295 of 0\nerror 1 no item -9223372036854775808\n\
    error 1 no item 9223372036854775807\nerror 1 not an item\nerror 1 overflow\nerror 7\n";

fn add_numbers(alloc: Global, to: &mut Items<Reply>) -> Result<(), NoMemory> {
    let arity = Refusal::Arity {
        given: u32::MAX,
        wanted: 0,
    };
    add(alloc, to, arity)?;
    add(alloc, to, Refusal::NoItem(i64::MIN))?;
    add(alloc, to, Refusal::NoItem(i64::MAX))?;
    add(alloc, to, Refusal::NotItem)?;
    add(alloc, to, Refusal::Overflow)?;
    add(alloc, to, Refusal::NoMemory)
}

const LIMITS: &str = "error 13 rowid 'a\n''b'\nerror 13 trees\nerror 13 pages 0 floor 4294967295\n\
    error 13 numbers 4294967295\nerror 13 transactions 0\nerror 18 18446744073709551615\n";

fn add_limits(alloc: Global, to: &mut Items<Reply>) -> Result<(), NoMemory> {
    add(alloc, to, Refusal::Rowid(name(alloc)?))?;
    add(alloc, to, Refusal::Trees)?;
    let pages = Full::Pages {
        count: 0,
        floor: Cid(u32::MAX),
    };
    add(alloc, to, Refusal::Full(pages))?;
    add(alloc, to, Refusal::Full(Full::Numbers(u32::MAX)))?;
    add(alloc, to, Refusal::Full(Full::Transactions(0)))?;
    add(alloc, to, Refusal::TooBig(u64::MAX))
}

const CONFLICTS: &str = "error 517 conn 4294967295 txn 0 key X''\n\
    error 517 conn 0 txn 4294967295 key X'00FF'\nerror 1299 'a\n''b' ''\nerror 1555 '' 'a\n''b'\n\
    error 2067 'a\n''b' 'a\n''b'\n";

fn add_conflicts(alloc: Global, to: &mut Items<Reply>) -> Result<(), NoMemory> {
    add_busy(alloc, to, u32::MAX, 0, b"")?;
    add_busy(alloc, to, 0, u32::MAX, b"\x00\xff")?;
    let not_null = Refusal::NotNull {
        table: name(alloc)?,
        column: Str::from_text(alloc, "")?,
    };
    add(alloc, to, not_null)?;
    let primary = Refusal::Primary {
        table: Str::from_text(alloc, "")?,
        name: name(alloc)?,
    };
    add(alloc, to, primary)?;
    let unique = Refusal::Unique {
        table: name(alloc)?,
        index: name(alloc)?,
    };
    add(alloc, to, unique)
}

fn add_busy(
    alloc: Global,
    to: &mut Items<Reply>,
    conn: u32,
    ord: u32,
    key: &[u8],
) -> Result<(), NoMemory>
    requires { length key.now ≤ 463 }
{
    let room = BoxedKey::new(alloc)?;
    add(alloc, to, Refusal::busy(room, conn, ord, key))
}

fn add_all(alloc: Global, to: &mut Items<Reply>) -> Result<(), NoMemory> {
    add_lexing(alloc, to)?;
    add_names(alloc, to)?;
    add_columns(alloc, to)?;
    add_numbers(alloc, to)?;
    add_limits(alloc, to)?;
    add_conflicts(alloc, to)
}

fn text_of_all(alloc: Global) -> Result<Vec<u8>, NoMemory> {
    let mut out = Vec::from_slice(alloc, b"conn 4294967295\n")?;
    for part in [LEXING, NAMES, COLUMNS, NUMBERS, LIMITS, CONFLICTS] {
        out.extend_from_slice(part.as_bytes())?;
    }
    Ok(out)
}

fn all(alloc: Global) -> Made<Items<Reply>> {
    let mut replies = Items::new(alloc);
    add_all(alloc, &mut replies)?;
    Ok(replies)
}

// How many replies there are, where they are printed as the text, which is read as them.
fn agree<A: Answers + Printed + Drop>(
    alloc: Global,
    made: Made<A>,
    text: &[u8],
) -> Made<Option<usize>> {
    let answers = made?;
    let printed = answers.text(alloc)?;
    let replies = first_replies(answers.all());
    if printed.as_slice() == text && are_refusals(read(alloc, text), replies) {
        Ok(Some(replies.len()))
    } else {
        Ok(None)
    }
}

#[test]
fn each_refusal_is_read_again(rt: HostRuntime) -> Result<(), Fail> {
    let alloc = rt.alloc();
    let text = text_of_all(alloc)?;
    assert!(rt; is_output(alloc, text.as_slice())?);
    let count = agree(alloc, alone(alloc, u32::MAX, all(alloc)), text.as_slice())?;
    assert_eq!(rt; count, Some(38));
    Ok(())
}
