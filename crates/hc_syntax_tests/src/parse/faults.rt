// Texts that are no statement, each with its fault and its place.
use crate::parse::{all_refused, reads};
use hc_lex::{Token, tokens};
use std::alloc::Global;
use std::process::Abort;
use std::test::Fail;

const REFUSED: [(&str, &str); 62] = [
    ("", "syntax 0"),
    (";", "syntax 0"),
    ("SELECT", "syntax 6"),
    ("SELECT 1;", "syntax 8"),
    ("SELECT 1 2", "syntax 9"),
    ("SELECT 1,", "syntax 9"),
    ("SELECT DISTINCT", "syntax 15"),
    ("SELECT ()", "syntax 8"),
    ("SELECT f()", "syntax 9"),
    ("SELECT a.", "syntax 9"),
    ("SELECT a.b.c", "syntax 10"),
    ("SELECT a.1", "syntax 9"),
    ("SELECT count(* )+*", "syntax 17"),
    ("SELECT f(*, 1)", "syntax 10"),
    ("SELECT 1 NOT", "syntax 12"),
    ("SELECT 1 NOT 2", "syntax 13"),
    ("SELECT 1 NOT NOT", "syntax 13"),
    ("SELECT 1 IS", "syntax 11"),
    ("SELECT 1 IN 2", "syntax 12"),
    ("SELECT 1 IN ()", "syntax 13"),
    ("SELECT 1 BETWEEN 2", "syntax 18"),
    ("SELECT 1 BETWEEN 2 OR 3", "syntax 19"),
    ("SELECT 1 BETWEEN NOT 2 AND 3", "syntax 17"),
    ("SELECT a = NOT b", "syntax 11"),
    ("SELECT 1 + NOT 2", "syntax 11"),
    ("SELECT 9223372036854775808", "syntax 7"),
    ("SELECT -(9223372036854775808)", "syntax 9"),
    ("SELECT 1 - 9223372036854775808", "syntax 11"),
    ("SELECT + 9223372036854775808", "syntax 9"),
    ("SELECT *", "syntax 8"),
    ("SELECT *, 1 WHERE 1", "syntax 12"),
    ("SELECT t.*", "syntax 10"),
    ("SELECT 1 AS", "syntax 11"),
    ("SELECT 1 AS 'a'", "syntax 12"),
    ("SELECT 1 FROM", "syntax 13"),
    ("SELECT 1 FROM t ON 1", "syntax 16"),
    ("SELECT 1 FROM t, u ON 1", "syntax 19"),
    ("SELECT 1 FROM t INNER u", "syntax 22"),
    ("SELECT 1 FROM t JOIN u ON", "syntax 25"),
    ("SELECT 1 FROM a,b,c,d,e,f,g,h,i", "syntax 30"),
    ("SELECT 1 FROM a,b,c,d,e,f,g,h JOIN i", "syntax 35"),
    ("SELECT 1 FROM a,b,c,d,e,f,g,h CROSS JOIN 1", "syntax 41"),
    ("SELECT 1 FROM a,b,c,d,e,f,g,h INNER", "syntax 35"),
    ("SELECT 1 FROM a,b,c,d,e,f,g,h,", "syntax 30"),
    ("SELECT 1 HAVING 1", "syntax 9"),
    ("SELECT 1 GROUP 1", "syntax 15"),
    ("SELECT a ORDER BY a \"desc\"", "syntax 20"),
    ("SELECT a OFFSET 1", "syntax 9"),
    ("SELECT a LIMIT 9223372036854775808", "syntax 15"),
    ("SELECT a LIMIT +1", "syntax 15"),
    ("SELECT a LIMIT 1 + 1", "syntax 17"),
    ("SELECT 1 UNION SELECT 2", "syntax 15"),
    ("SELECT CAST(1 AS TEXT)", "syntax 14"),
    ("INSERT INTO t VALUES ()", "syntax 22"),
    ("INSERT INTO t () VALUES (1)", "syntax 15"),
    ("UPDATE t SET a == 1", "syntax 15"),
    ("CREATE TABLE t (a) STRICT", "syntax 17"),
    ("CREATE TABLE t (a INTEGER)", "syntax 26"),
    ("CREATE TABLE t (UNIQUE (a)) STRICT", "syntax 16"),
    (
        "CREATE TABLE t (a INTEGER, UNIQUE (a), b TEXT) STRICT",
        "syntax 39",
    ),
    ("CREATE UNIQUE TABLE t (a TEXT) STRICT", "syntax 14"),
    ("COMMIT COMMIT", "syntax 7"),
];

#[test]
fn a_fault_has_the_least_place(rt: HostRuntime) -> Result<(), Fail> {
    all_refused(&rt, rt.alloc(), &REFUSED)
}

const KEYWORDS: [&str; 52] = [
    "AND",
    "AS",
    "BEGIN",
    "BETWEEN",
    "BLOB",
    "BY",
    "COMMIT",
    "CONCURRENT",
    "CREATE",
    "CROSS",
    "DEFERRED",
    "DELETE",
    "DISTINCT",
    "DROP",
    "END",
    "EXISTS",
    "FROM",
    "GROUP",
    "HAVING",
    "IF",
    "IN",
    "INDEX",
    "INNER",
    "INSERT",
    "INTEGER",
    "INTO",
    "IS",
    "JOIN",
    "KEY",
    "LIKE",
    "LIMIT",
    "NOT",
    "NULL",
    "OFFSET",
    "ON",
    "OR",
    "ORDER",
    "PRIMARY",
    "RELEASE",
    "ROLLBACK",
    "SAVEPOINT",
    "SELECT",
    "SET",
    "STRICT",
    "TABLE",
    "TEXT",
    "TO",
    "TRANSACTION",
    "UNIQUE",
    "UPDATE",
    "VALUES",
    "WHERE",
];

#[test]
fn no_keyword_is_a_plain_name(rt: HostRuntime) -> Result<(), Fail> {
    let alloc = rt.alloc();
    for word in &KEYWORDS {
        let text = format!(in alloc; "SELECT 1 FROM {word}")?;
        reads(&rt, alloc, text.as_str(), "syntax 14")?;
    }
    Ok(())
}

// A statement of which no front is one.
const LONG: &str =
    "CREATE TABLE IF NOT EXISTS t (a INTEGER PRIMARY KEY NOT NULL, b TEXT UNIQUE, PRIMARY KEY (a, b), UNIQUE (b)) STRICT";

fn ends_early(rt: &impl Abort, alloc: Global, front: &str) -> Result<(), Fail> {
    let wanted = format!(in alloc; "syntax {}", front.len())?;
    reads(rt, alloc, front, wanted.as_str())
}

fn is_stray(rt: &impl Abort, alloc: Global, front: &str, at: u32) -> Result<(), Fail> {
    let text = format!(in alloc; "{front};")?;
    let wanted = format!(in alloc; "syntax {at}")?;
    reads(rt, alloc, text.as_str(), wanted.as_str())
}

fn cut_at(rt: &impl Abort, alloc: Global, text: &str, token: &Token) -> Result<(), Fail> {
    let front = text.get(..token.from as usize).unwrap_or(text);
    ends_early(rt, alloc, front)
}

#[test]
fn each_front_of_a_statement_goes_on(rt: HostRuntime) -> Result<(), Fail> {
    let alloc = rt.alloc();
    let found = tokens(alloc, LONG)?;
    assert_eq!(rt; found.as_slice().len(), 32);
    for token in found.as_slice() {
        cut_at(&rt, alloc, LONG, token)?;
    }
    Ok(())
}

const QUERY: &str =
    "SELECT DISTINCT a, t.*, count(*) AS n FROM t u, v JOIN w ON u.a = w.b WHERE a NOT BETWEEN 1 AND -2 AND NOT b IN (1, 'x') GROUP BY a, b + 1 HAVING c LIKE 'y' ORDER BY a DESC, 2 LIMIT 5 OFFSET -6";

fn is_stray_at(rt: &impl Abort, alloc: Global, text: &str, token: &Token) -> Result<(), Fail> {
    let front = text.get(..token.from as usize).unwrap_or(text);
    is_stray(rt, alloc, front, token.from)
}

#[test]
fn a_stray_token_is_told_at_its_place(rt: HostRuntime) -> Result<(), Fail> {
    let alloc = rt.alloc();
    let found = tokens(alloc, QUERY)?;
    assert_eq!(rt; found.as_slice().len(), 68);
    for token in found.as_slice() {
        is_stray_at(&rt, alloc, QUERY, token)?;
    }
    Ok(())
}
