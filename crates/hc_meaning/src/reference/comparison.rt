// Whether answers, and replies without their endings, are the same.
ghost use Rattle.std.specs.Prelude.{◌≡◌, ◌↔◌, IsTrue};
ghost use Rattle.hc_meaning.specs.Run.{answer_of};

use crate::Answer;
use hc_transcript::{Line, Refusal, Reply, Row};
use hc_value::Value;

/// Whether a statement's answer is what this reply prints: the same rows in the same order, and the
/// same last line.
pub fn is_answer_of(answer: &Answer, reply: &Reply) -> bool
    ensures { IsTrue result ↔ (answer.now ≡ answer_of reply.now) }
{
    same_rows(answer.rows.as_slice(), reply.rows.as_slice()) && same_line(&answer.last, &reply.last)
}

/// Whether two replies print the same answer, whatever their endings are.
pub fn same_lines(a: &Reply, b: &Reply) -> bool
    ensures { IsTrue result ↔ (answer_of a.now ≡ answer_of b.now) }
{
    same_rows(a.rows.as_slice(), b.rows.as_slice()) && same_line(&a.last, &b.last)
}

fn same_rows(a: &[Row], b: &[Row]) -> bool
    ensures { IsTrue result ↔ (a.now ≡ b.now) }
{
    if a.len() != b.len() {
        return false;
    }
    for (i, x) in a.iter().enumerate() {
        if !same_row(x, &b[i]) {
            return false;
        }
    }
    true
}

fn same_row(a: &Row, b: &Row) -> bool
    ensures { IsTrue result ↔ (a.now ≡ b.now) }
{
    same_values(a.values.as_slice(), b.values.as_slice())
}

fn same_values(a: &[Value], b: &[Value]) -> bool
    ensures { IsTrue result ↔ (a.now ≡ b.now) }
{
    if a.len() != b.len() {
        return false;
    }
    for (i, x) in a.iter().enumerate() {
        if !same_value(x, &b[i]) {
            return false;
        }
    }
    true
}

fn same_value(a: &Value, b: &Value) -> bool
    ensures { IsTrue result ↔ (a.now ≡ b.now) }
{
    match (a, b) {
        (Value::Null, Value::Null) => true,
        (Value::Int(m), Value::Int(n)) => *m == *n,
        (Value::Text(s), Value::Text(t)) => s.as_bytes() == t.as_bytes(),
        (Value::Blob(s), Value::Blob(t)) => s.as_slice() == t.as_slice(),
        _ => false,
    }
}

fn same_line(a: &Line, b: &Line) -> bool
    ensures { IsTrue result ↔ (a.now ≡ b.now) }
{
    match (a, b) {
        (Line::Ok(m), Line::Ok(n)) => *m == *n,
        (Line::Error(m), Line::Error(n)) => same_refusal(m, n),
        _ => false,
    }
}

fn same_refusal(a: &Refusal, b: &Refusal) -> bool
    ensures { IsTrue result ↔ (a.now ≡ b.now) }
{
    a.is_same(b)
}
