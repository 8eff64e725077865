// Expected texts were written out by hand from the output form, which docs/PROGRAM.md has. Each helper takes its
// parts as they were made or refused, so that a test keeps no reply across a `?`, which would prove its drop there.
ghost use Rattle.std.specs.Prelude.{◌≢◌, ◌≤◌, [], length, map, IsTrue};
ghost use Rattle.std.specs.List.{AllByRecursion};
ghost use Rattle.std.specs.List.Sorted.{IsStrictlyIncreasing};
ghost use Rattle.hc_transcript.specs.Outputs.{HasValues, RowsHaveValues, HaveValues};

use hc_base::{Cid, Full};
use hc_lex::LexKind;
use hc_reply::{BoxedKey, Ending, Line, Refusal, Reply, Row, Transcript, print};
use hc_text::Bytes;
use hc_value::{Blob, NoMemory, Str, Value};
use sqlite_items::Items;
use std::alloc::Global;
use std::process::Abort;
use std::test::Fail;

// What was made, or word that memory ran out.
pub type Made<T> = Result<T, NoMemory>;

// What is printed. Over a type that it does not know, a function's proof has a drop as one step.
pub trait Printed {
    fn text(&self, alloc: Global) -> Made<Bytes>;
}

// Nothing where `print` takes no such transcripts.
impl Printed for Items<Transcript> {
    fn text(&self, alloc: Global) -> Made<Bytes> {
        let all = self.as_slice();
        if is_taken(all) && transcripts_have_values(all) {
            print(alloc, all)
        } else {
            Ok(Bytes::from_vec(Vec::new(alloc)))
        }
    }
}

// Whether these are one or two connections, which ascend and have replies.
fn is_taken(all: &[Transcript]) -> bool
    ensures ascending { IsTrue result → IsStrictlyIncreasing (map (λ t. t.conn) all.now) }
    ensures replies { IsTrue result → AllByRecursion (λ t. t.replies ≢ []) all.now }
{
    match all {
        [one] => !one.replies.is_empty(),
        [first, second] => {
            first.conn < second.conn && !first.replies.is_empty() && !second.replies.is_empty()
        }
        _ => false,
    }
}

// Whether each row has a value.
fn transcripts_have_values(all: &[Transcript]) -> bool
    ensures { IsTrue result → HaveValues all.now }
{
    let Some((first, others)) = all.split_first() else {
        return true;
    };
    replies_have_values(first.replies.as_slice()) && transcripts_have_values(others)
}

fn replies_have_values(all: &[Reply]) -> bool
    ensures { IsTrue result → AllByRecursion RowsHaveValues all.now }
{
    let Some((first, others)) = all.split_first() else {
        return true;
    };
    rows_have_values(first.rows.as_slice()) && replies_have_values(others)
}

fn rows_have_values(all: &[Row]) -> bool
    ensures { IsTrue result → AllByRecursion HasValues all.now }
{
    let Some((first, others)) = all.split_first() else {
        return true;
    };
    !first.values.is_empty() && rows_have_values(others)
}

fn text_of<P: Printed + Drop>(alloc: Global, made: Made<P>) -> Made<Bytes> {
    made?.text(alloc)
}

fn is_printed<P: Printed + Drop>(
    rt: &impl Abort,
    alloc: Global,
    made: Made<P>,
    want: &[u8],
) -> Result<(), Fail> {
    let text = text_of(alloc, made)?;
    assert_eq!(rt; text.as_slice(), want);
    Ok(())
}

fn both<A: Drop, B: Drop>(first: Made<A>, second: Made<B>) -> Made<(A, B)> {
    let first = first?;
    let second = second?;
    Ok((first, second))
}

fn one<T: Drop>(alloc: Global, item: Made<T>) -> Made<Items<T>> {
    add(Ok(Items::new(alloc)), item)
}

fn add<T: Drop>(items: Made<Items<T>>, item: Made<T>) -> Made<Items<T>> {
    let (mut items, item) = both(items, item)?;
    items.push(item)?;
    Ok(items)
}

fn name(alloc: Global, text: &str) -> Made<Str> {
    Str::from_text(alloc, text)
}

fn int(n: i64) -> Made<Value> {
    Ok(Value::Int(n))
}

fn text(alloc: Global, text: &str) -> Made<Value> {
    Ok(Value::Text(Str::from_text(alloc, text)?))
}

fn blob(alloc: Global, bytes: &[u8]) -> Made<Value> {
    Ok(Value::Blob(Blob::from_slice(alloc, bytes)?))
}

fn row(values: Made<Items<Value>>) -> Made<Row> {
    Ok(Row { values: values? })
}

fn no_row(alloc: Global) -> Made<Items<Row>> {
    Ok(Items::new(alloc))
}

fn error(refusal: Made<Refusal>) -> Made<Line> {
    Ok(Line::Error(refusal?))
}

fn reply(rows: Made<Items<Row>>, last: Made<Line>, ending: Option<Ending>) -> Made<Reply> {
    let (rows, last) = both(rows, last)?;
    Ok(Reply { rows, last, ending })
}

fn transcript(conn: u32, replies: Made<Items<Reply>>) -> Made<Transcript> {
    let replies = replies?;
    Ok(Transcript { conn, replies })
}

// The output of this connection alone.
pub fn alone(alloc: Global, conn: u32, replies: Made<Items<Reply>>) -> Made<Items<Transcript>> {
    one(alloc, transcript(conn, replies))
}

// The output with one reply, which has these rows.
fn with_rows(alloc: Global, rows: Made<Items<Row>>) -> Made<Items<Transcript>> {
    alone(alloc, 0, one(alloc, reply(rows, Ok(Line::Ok(1)), None)))
}

// The output with one reply, which is this refusal, has these lines.
fn is_refused(
    rt: &impl Abort,
    alloc: Global,
    refusal: Made<Refusal>,
    want: &[u8],
) -> Result<(), Fail> {
    let only = reply(no_row(alloc), error(refusal), None);
    is_printed(rt, alloc, alone(alloc, 0, one(alloc, only)), want)
}

fn primary(alloc: Global, table: &str, key: &str) -> Made<Refusal> {
    let (table, name) = both(name(alloc, table), name(alloc, key))?;
    Ok(Refusal::Primary { table, name })
}

fn not_null(alloc: Global, table: &str, column: &str) -> Made<Refusal> {
    let (table, column) = both(name(alloc, table), name(alloc, column))?;
    Ok(Refusal::NotNull { table, column })
}

fn unique(alloc: Global, table: &str, index: &str) -> Made<Refusal> {
    let (table, index) = both(name(alloc, table), name(alloc, index))?;
    Ok(Refusal::Unique { table, index })
}

fn busy(alloc: Global, key: &[u8]) -> Made<Refusal>
    requires { length key.now ≤ 463 }
{
    Ok(Refusal::busy(BoxedKey::new(alloc)?, 1, 2, key))
}

fn first_replies(alloc: Global) -> Made<Items<Reply>> {
    let first = reply(no_row(alloc), Ok(Line::Ok(1)), Some(Ending::Commit(1)));
    let values = add(one(alloc, int(0)), Ok(Value::Null));
    let rows = one(alloc, row(add(values, int(i64::MIN))));
    let rows = add(rows, row(one(alloc, int(i64::MAX))));
    add(one(alloc, first), reply(rows, Ok(Line::Ok(2)), None))
}

fn second_replies(alloc: Global) -> Made<Items<Reply>> {
    let quoted = error(primary(alloc, "it's", "''"));
    let first = reply(no_row(alloc), quoted, Some(Ending::RolledBack(0)));
    let last = Ok(Line::Ok(u64::MAX));
    let second = reply(no_row(alloc), last, Some(Ending::Snapshot(u32::MAX)));
    add(one(alloc, first), second)
}

#[test]
fn each_part_of_an_output_is_a_line(rt: HostRuntime) -> Result<(), Fail> {
    let alloc = rt.alloc();
    let first = alone(alloc, 0, first_replies(alloc));
    let both = add(first, transcript(64, second_replies(alloc)));
    let want = "conn 0\nok 1\ncommit 1\n\
        row 0|NULL|-9223372036854775808\nrow 9223372036854775807\nok 2\n\
        conn 64\nerror 1555 'it''s' ''''''\nrolled back 0\n\
        ok 18446744073709551615\nsnapshot 4294967295\n";
    is_printed(&rt, alloc, both, want.as_bytes())
}

#[test]
fn texts_and_blobs_are_printed_as_literals(rt: HostRuntime) -> Result<(), Fail> {
    let alloc = rt.alloc();
    let values = add(one(alloc, text(alloc, "it's | €")), text(alloc, ""));
    let values = add(values, blob(alloc, b"\x00\x9a\xbc\xdef'"));
    let values = add(values, blob(alloc, b""));
    let only = reply(one(alloc, row(values)), Ok(Line::Ok(1)), None);
    let want = "conn 3\nrow 'it''s | €'|''|X'009ABCDE6627'|X''\nok 1\n";
    is_printed(
        &rt,
        alloc,
        alone(alloc, 3, one(alloc, only)),
        want.as_bytes(),
    )
}

#[test]
fn a_text_with_a_line_feed_is_printed_as_it_is(rt: HostRuntime) -> Result<(), Fail> {
    let alloc = rt.alloc();
    let rows = one(alloc, row(one(alloc, text(alloc, "a\n'b"))));
    let want = "conn 0\nrow 'a\n''b'\nok 1\n";
    is_printed(&rt, alloc, with_rows(alloc, rows), want.as_bytes())
}

#[test]
fn each_row_has_a_line(rt: HostRuntime) -> Result<(), Fail> {
    let alloc = rt.alloc();
    let rows = one(alloc, row(one(alloc, Ok(Value::Null))));
    let rows = add(rows, row(add(one(alloc, int(1)), Ok(Value::Null))));
    let want = "conn 0\nrow NULL\nrow 1|NULL\nok 1\n";
    is_printed(&rt, alloc, with_rows(alloc, rows), want.as_bytes())
}

#[test]
fn no_transcript_prints_nothing(rt: HostRuntime) -> Result<(), Fail> {
    assert_eq!(rt; print(rt.alloc(), &[])?.as_slice(), b"".as_slice());
    Ok(())
}

#[test]
fn faults_of_lexing_and_parsing_have_their_lines(rt: HostRuntime) -> Result<(), Fail> {
    let alloc = rt.alloc();
    is_refused(
        &rt,
        alloc,
        Ok(Refusal::Lex {
            kind: LexKind::Char,
            at: 0,
        }),
        b"conn 0\nerror 1 lex Char at 0\n",
    )?;
    is_refused(
        &rt,
        alloc,
        Ok(Refusal::Lex {
            kind: LexKind::OpenText,
            at: 7,
        }),
        b"conn 0\nerror 1 lex OpenText at 7\n",
    )?;
    is_refused(
        &rt,
        alloc,
        Ok(Refusal::Lex {
            kind: LexKind::BadBlob,
            at: 8,
        }),
        b"conn 0\nerror 1 lex BadBlob at 8\n",
    )?;
    is_refused(
        &rt,
        alloc,
        Ok(Refusal::Lex {
            kind: LexKind::TooLarge,
            at: 9,
        }),
        b"conn 0\nerror 1 lex TooLarge at 9\n",
    )?;
    is_refused(
        &rt,
        alloc,
        Ok(Refusal::Syntax { at: 4_294_967_295 }),
        b"conn 0\nerror 1 syntax at 4294967295\n",
    )?;
    is_refused(
        &rt,
        alloc,
        Ok(Refusal::TooDeep { at: 10 }),
        b"conn 0\nerror 1 too deep at 10\n",
    )?;
    Ok(())
}

#[test]
fn refusals_of_a_whole_statement_have_their_lines(rt: HostRuntime) -> Result<(), Fail> {
    let alloc = rt.alloc();
    is_refused(
        &rt,
        alloc,
        Ok(Refusal::Within),
        b"conn 0\nerror 1 within a transaction\n",
    )?;
    is_refused(
        &rt,
        alloc,
        Ok(Refusal::NoTransaction),
        b"conn 0\nerror 1 no transaction\n",
    )?;
    is_refused(
        &rt,
        alloc,
        Ok(Refusal::TwoKeys),
        b"conn 0\nerror 1 two keys\n",
    )?;
    is_refused(
        &rt,
        alloc,
        Ok(Refusal::Mixed),
        b"conn 0\nerror 1 mixed classes\n",
    )?;
    is_refused(
        &rt,
        alloc,
        Ok(Refusal::Aggregate),
        b"conn 0\nerror 1 aggregate\n",
    )?;
    is_refused(
        &rt,
        alloc,
        Ok(Refusal::NotItem),
        b"conn 0\nerror 1 not an item\n",
    )?;
    is_refused(
        &rt,
        alloc,
        Ok(Refusal::Overflow),
        b"conn 0\nerror 1 overflow\n",
    )?;
    is_refused(&rt, alloc, Ok(Refusal::NoMemory), b"conn 0\nerror 7\n")?;
    is_refused(&rt, alloc, Ok(Refusal::Trees), b"conn 0\nerror 13 trees\n")?;
    Ok(())
}

#[test]
fn refusals_with_a_name_have_their_lines(rt: HostRuntime) -> Result<(), Fail> {
    let alloc = rt.alloc();
    is_refused(
        &rt,
        alloc,
        Ok(Refusal::NoSavepoint(name(alloc, "it's")?)),
        b"conn 0\nerror 1 no savepoint 'it''s'\n",
    )?;
    is_refused(
        &rt,
        alloc,
        Ok(Refusal::NoTable(name(alloc, "it's")?)),
        b"conn 0\nerror 1 no table 'it''s'\n",
    )?;
    is_refused(
        &rt,
        alloc,
        Ok(Refusal::NoIndex(name(alloc, "it's")?)),
        b"conn 0\nerror 1 no index 'it''s'\n",
    )?;
    is_refused(
        &rt,
        alloc,
        Ok(Refusal::Exists(name(alloc, "it's")?)),
        b"conn 0\nerror 1 exists 'it''s'\n",
    )?;
    is_refused(
        &rt,
        alloc,
        Ok(Refusal::Reserved(name(alloc, "it's")?)),
        b"conn 0\nerror 1 reserved 'it''s'\n",
    )?;
    is_refused(
        &rt,
        alloc,
        Ok(Refusal::TwoColumns(name(alloc, "it's")?)),
        b"conn 0\nerror 1 two columns 'it''s'\n",
    )?;
    Ok(())
}

#[test]
fn other_refusals_with_a_name_have_their_lines(rt: HostRuntime) -> Result<(), Fail> {
    let alloc = rt.alloc();
    is_refused(
        &rt,
        alloc,
        Ok(Refusal::TooManyColumns(name(alloc, "it's")?)),
        b"conn 0\nerror 1 too many columns 'it''s'\n",
    )?;
    is_refused(
        &rt,
        alloc,
        Ok(Refusal::NoColumn(name(alloc, "it's")?)),
        b"conn 0\nerror 1 no column 'it''s'\n",
    )?;
    is_refused(
        &rt,
        alloc,
        Ok(Refusal::Ambiguous(name(alloc, "it's")?)),
        b"conn 0\nerror 1 ambiguous 'it''s'\n",
    )?;
    is_refused(
        &rt,
        alloc,
        Ok(Refusal::NoFunction(name(alloc, "it's")?)),
        b"conn 0\nerror 1 no function 'it''s'\n",
    )?;
    is_refused(
        &rt,
        alloc,
        Ok(Refusal::Rowid(name(alloc, "it's")?)),
        b"conn 0\nerror 13 rowid 'it''s'\n",
    )?;
    Ok(())
}

#[test]
fn refusals_with_numbers_have_their_lines(rt: HostRuntime) -> Result<(), Fail> {
    let alloc = rt.alloc();
    is_refused(
        &rt,
        alloc,
        Ok(Refusal::Arity {
            given: 3,
            wanted: 2,
        }),
        b"conn 0\nerror 1 arity 3 of 2\n",
    )?;
    is_refused(
        &rt,
        alloc,
        Ok(Refusal::NoItem(-5)),
        b"conn 0\nerror 1 no item -5\n",
    )?;
    is_refused(
        &rt,
        alloc,
        Ok(Refusal::Full(Full::Pages {
            count: 16,
            floor: Cid(2),
        })),
        b"conn 0\nerror 13 pages 16 floor 2\n",
    )?;
    is_refused(
        &rt,
        alloc,
        Ok(Refusal::Full(Full::Numbers(64))),
        b"conn 0\nerror 13 numbers 64\n",
    )?;
    is_refused(
        &rt,
        alloc,
        Ok(Refusal::Full(Full::Transactions(1))),
        b"conn 0\nerror 13 transactions 1\n",
    )?;
    is_refused(
        &rt,
        alloc,
        Ok(Refusal::TooBig(u64::MAX)),
        b"conn 0\nerror 18 18446744073709551615\n",
    )?;
    is_refused(
        &rt,
        alloc,
        busy(alloc, b"\x00\x9a"),
        b"conn 0\nerror 517 conn 1 txn 2 key X'009A'\n",
    )?;
    is_refused(
        &rt,
        alloc,
        busy(alloc, b""),
        b"conn 0\nerror 517 conn 1 txn 2 key X''\n",
    )?;
    Ok(())
}

#[test]
fn broken_constraints_have_their_lines(rt: HostRuntime) -> Result<(), Fail> {
    let alloc = rt.alloc();
    is_refused(
        &rt,
        alloc,
        not_null(alloc, "d", "it's"),
        b"conn 0\nerror 1299 'd' 'it''s'\n",
    )?;
    is_refused(
        &rt,
        alloc,
        primary(alloc, "d", "it's"),
        b"conn 0\nerror 1555 'd' 'it''s'\n",
    )?;
    is_refused(
        &rt,
        alloc,
        unique(alloc, "d", "it's"),
        b"conn 0\nerror 2067 'd' 'it''s'\n",
    )?;
    Ok(())
}
