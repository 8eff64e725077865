// The answers on all short texts, and on long ones that are put together by chance.
ghost use Rattle.std.specs.Prelude.{◌<◌, ◌≢◌};

use crate::reading::{answer, mixed};
use hc_lex::NoMemory;
use std::alloc::Global;

const SIGNS: [&str; 20] = [
    "'", "\"", "x", "1", "9", "a", "(", ")", ",", ".", "+", "-", "*", "/", "=", "<", ";", " ", "|",
    "!",
];

/// The answers on all texts of up to so many of the signs, after a front.
pub fn of_signs(alloc: Global, sum: u64, front: &str, count: u32) -> Result<u64, NoMemory> {
    let mut sum = sum;
    let mut size: usize = 1;
    for length in 0..=count {
        for number in 0..size {
            sum = mixed(
                sum,
                answer(alloc, spelled(alloc, front, number, length)?.as_str())?,
            );
        }
        size = size.saturating_mul(SIGNS.len());
    }
    Ok(sum)
}

fn spelled(alloc: Global, front: &str, number: usize, length: u32) -> Result<String, NoMemory> {
    let mut text = String::from_str(alloc, front)?;
    let mut number = number;
    for _ in 0..length {
        text.push_str(SIGNS[number % 20])?;
        number /= 20;
    }
    Ok(text)
}

const OPERANDS: [&str; 24] = [
    "1",
    "a",
    "t.a",
    "'x'",
    "X'0A'",
    "NULL",
    "f(1",
    "(",
    "-",
    "+",
    "NOT",
    "- 9223372036854775808",
    "count(*)",
    "\"q\"\"\"",
    "*",
    "t.*",
    "(1)",
    "f(1, a)",
    "9223372036854775808",
    "a",
    "7",
    "'it''s'",
    "DISTINCT",
    "(",
];

const OPERATORS: [&str; 48] = [
    "OR",
    "AND",
    "=",
    "==",
    "<>",
    "!=",
    "IS",
    "IS NOT",
    "<",
    "<=",
    ">",
    ">=",
    "+",
    "-",
    "*",
    "/",
    "%",
    "||",
    "LIKE",
    "NOT LIKE",
    "IN (",
    "NOT IN (",
    "BETWEEN",
    "NOT BETWEEN",
    "AND",
    ",",
    ")",
    ")",
    "AS b,",
    "b,",
    "FROM t WHERE",
    "FROM t, u JOIN v ON",
    "WHERE",
    "GROUP BY",
    "HAVING",
    "ORDER BY",
    "DESC,",
    "ASC,",
    "LIMIT",
    "OFFSET",
    "NOT",
    "IN (1) AND",
    ") OR",
    "+",
    ",",
    "=",
    "AND",
    "*",
];

const FRONTS: [&str; 12] = [
    "SELECT",
    "SELECT",
    "SELECT 1 +",
    "SELECT a FROM t WHERE",
    "UPDATE t SET a =",
    "INSERT INTO t VALUES (",
    "DELETE FROM t WHERE",
    "SELECT a FROM t, u WHERE",
    "SELECT a IN (",
    "SELECT f(",
    "SELECT a BETWEEN",
    "SELECT a FROM t ORDER BY",
];

const WORDS: [&str; 64] = [
    "CREATE",
    "TABLE",
    "IF",
    "NOT",
    "EXISTS",
    "t",
    "(",
    "a",
    "INTEGER",
    "TEXT",
    "BLOB",
    "PRIMARY",
    "KEY",
    "UNIQUE",
    ",",
    ")",
    "STRICT",
    "INDEX",
    "ON",
    "DROP",
    "BEGIN",
    "DEFERRED",
    "CONCURRENT",
    "TRANSACTION",
    "COMMIT",
    "END",
    "ROLLBACK",
    "TO",
    "SAVEPOINT",
    "RELEASE",
    "INSERT INTO t",
    "VALUES",
    "UPDATE t",
    "SET",
    "DELETE FROM t",
    "WHERE",
    "1",
    "SELECT",
    "FROM",
    "JOIN",
    "INNER",
    "CROSS",
    "AS",
    "LIMIT",
    "-1",
    "OFFSET",
    "CREATE TABLE t (a INTEGER",
    "PRIMARY KEY",
    "NOT NULL",
    "UNIQUE (a)",
    ") STRICT",
    "CREATE INDEX",
    "CREATE UNIQUE INDEX",
    "IF NOT EXISTS",
    "i ON t (a",
    "DROP TABLE",
    "DROP INDEX",
    "IF EXISTS",
    "ROLLBACK TO",
    "RELEASE SAVEPOINT",
    "SAVEPOINT a",
    "BEGIN CONCURRENT",
    "\"b\"",
    "a TEXT",
];

fn next(seed: u64) -> u64 {
    seed.wrapping_mul(6_364_136_223_846_793_005)
        .wrapping_add(1_442_695_040_888_963_407)
}

fn choice(seed: u64, count: usize) -> usize
    requires { count ≢ 0 }
    ensures { result < count }
{
    (seed >> 33) as usize % count
}

fn push_word(text: &mut String, word: &str) -> Result<(), NoMemory> {
    text.push_str(word)?;
    text.push(' ')
}

// Operands and operators by turns.
fn expression(alloc: Global, seed: u64) -> Result<String, NoMemory> {
    let mut seed = next(seed);
    let mut text = String::new(alloc);
    push_word(&mut text, FRONTS[choice(seed, FRONTS.len())])?;
    let length = seed >> 58;
    for _ in 0..length {
        seed = next(seed);
        push_word(&mut text, OPERANDS[choice(seed, OPERANDS.len())])?;
        seed = next(seed);
        push_word(&mut text, OPERATORS[choice(seed, OPERATORS.len())])?;
    }
    push_word(&mut text, OPERANDS[choice(seed, OPERANDS.len())])?;
    Ok(text)
}

fn words(alloc: Global, seed: u64) -> Result<String, NoMemory> {
    let mut seed = next(seed);
    let mut text = String::new(alloc);
    for _ in 0..1 + (seed >> 61) {
        seed = next(seed);
        push_word(&mut text, WORDS[choice(seed, WORDS.len())])?;
    }
    Ok(text)
}

/// The answers on so many texts that are put together by chance.
pub fn of_chance(alloc: Global, sum: u64, count: u64) -> Result<u64, NoMemory> {
    let mut sum = sum;
    for number in 0..count {
        let seed = mixed(11, number);
        sum = mixed(sum, answer(alloc, expression(alloc, seed)?.as_str())?);
        sum = mixed(sum, answer(alloc, words(alloc, seed)?.as_str())?);
    }
    Ok(sum)
}
