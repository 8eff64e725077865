// Bound expressions as they are written, so that the same expression is the key of a map.
ghost use Rattle.std.specs.Prelude.{◌≡◌, ◌++◌, ◌∷◌, [], ℕ, OnOk, map};
ghost use Rattle.std.specs.List.{concat};
ghost use Rattle.hc_schema.specs.Binding.Writing.{value_written, bytes_written, number_written, flag_written, operator_written, kind_written, aggregate_written, written};

use hc_ast::{BinaryOp, Bound};
use hc_schema::{Aggregate, AggregateKind};
use hc_value::{NoMemory, Value};
use itoa::Buffer;

fn push(out: &mut Vec<u8>, byte: u8) -> Result<(), NoMemory>
    ensures { OnOk result (out.new.items ≡ out.old.items ++ byte ∷ []) }
{
    match out.push(byte) {
        Ok(()) => Ok(()),
        Err(_) => Err(std::alloc::AllocError),
    }
}

/// A number in decimals, with `;` after it, so that where it ends is known.
pub fn push_number(out: &mut Vec<u8>, n: u64) -> Result<(), NoMemory>
    ensures { OnOk result (out.new.items ≡ out.old.items ++ number_written n) }
{
    let mut buffer = Buffer::new();
    out.extend_from_slice(buffer.format(n).as_bytes())?;
    push(out, b';')
}

// Bytes after their length.
fn push_bytes(out: &mut Vec<u8>, bytes: &[u8]) -> Result<(), NoMemory>
    ensures { OnOk result (out.new.items ≡ out.old.items ++ bytes_written bytes.now) }
{
    push_number(out, bytes.len() as u64)?;
    out.extend_from_slice(bytes)
}

/// A value.
pub fn push_value(out: &mut Vec<u8>, v: &Value) -> Result<(), NoMemory>
    ensures { OnOk result (out.new.items ≡ out.old.items ++ value_written v.now) }
{
    match v {
        Value::Null => push(out, 1),
        Value::Int(n) => {
            push(out, 2)?;
            push(out, u8::from(*n < 0))?;
            push_number(out, n.unsigned_abs())
        }
        Value::Text(text) => {
            push(out, 3)?;
            push_bytes(out, text.as_bytes())
        }
        Value::Blob(bytes) => {
            push(out, 4)?;
            push_bytes(out, bytes.as_slice())
        }
    }
}

/// A column.
pub fn push_column(out: &mut Vec<u8>, place: u32) -> Result<(), NoMemory>
    ensures { OnOk result (out.new.items ≡ out.old.items ++ (5 ∷ number_written place)) }
{
    push(out, 5)?;
    push_number(out, u64::from(place))
}

/// What comes before the operand of an operator or a function of one.
pub fn push_one(out: &mut Vec<u8>, code: u8) -> Result<(), NoMemory>
    ensures { OnOk result (out.new.items ≡ out.old.items ++ code ∷ []) }
{
    push(out, code)
}

/// What comes before the operands of an operator between two.
pub fn push_binary(out: &mut Vec<u8>, op: BinaryOp) -> Result<(), NoMemory>
    ensures { OnOk result (out.new.items ≡ out.old.items ++ (9 ∷ operator_written op ∷ [])) }
{
    push(out, 9)?;
    push(out, operator_code(op))
}

/// What comes before the operands of IN, LIKE or BETWEEN, of which `code` says which it is.
pub fn push_flagged(out: &mut Vec<u8>, code: u8, not: bool) -> Result<(), NoMemory>
    ensures { OnOk result (out.new.items ≡ out.old.items ++ (code ∷ flag_written not ∷ [])) }
{
    push(out, code)?;
    push(out, u8::from(not))
}

fn operator_code(op: BinaryOp) -> u8
    ensures { result ≡ operator_written op }
{
    match op {
        BinaryOp::Or => 0,
        BinaryOp::And => 1,
        BinaryOp::Eq => 2,
        BinaryOp::Ne => 3,
        BinaryOp::Is => 4,
        BinaryOp::IsNot => 5,
        BinaryOp::Lt => 6,
        BinaryOp::Le => 7,
        BinaryOp::Gt => 8,
        BinaryOp::Ge => 9,
        BinaryOp::Add => 10,
        BinaryOp::Sub => 11,
        BinaryOp::Mul => 12,
        BinaryOp::Div => 13,
        BinaryOp::Rem => 14,
        BinaryOp::Concat => 15,
    }
}

/// An expression.
#[cycle(written)]
pub fn push_written(out: &mut Vec<u8>, e: &Bound) -> Result<(), NoMemory>
    ensures { OnOk result (out.new.items ≡ out.old.items ++ written e.now) }
{
    match e {
        Bound::Value(v) => push_value(out, v),
        Bound::Column(place) => push_column(out, *place),
        Bound::Not(of) => {
            push_one(out, 6)?;
            push_written(out, of.get())
        }
        Bound::Minus(of) => {
            push_one(out, 7)?;
            push_written(out, of.get())
        }
        Bound::Plus(of) => {
            push_one(out, 8)?;
            push_written(out, of.get())
        }
        Bound::Length(of) => {
            push_one(out, 13)?;
            push_written(out, of.get())
        }
        Bound::Abs(of) => {
            push_one(out, 14)?;
            push_written(out, of.get())
        }
        Bound::Binary { op, left, right } => {
            push_binary(out, *op)?;
            push_written(out, left.get())?;
            push_written(out, right.get())
        }
        Bound::Like { not, left, pattern } => {
            push_flagged(out, 11, *not)?;
            push_written(out, left.get())?;
            push_written(out, pattern.get())
        }
        Bound::Between {
            not,
            left,
            low,
            high,
        } => {
            push_flagged(out, 12, *not)?;
            push_written(out, left.get())?;
            push_written(out, low.get())?;
            push_written(out, high.get())
        }
        Bound::OneOf { not, left, list } => {
            push_flagged(out, 10, *not)?;
            push_written(out, left.get())?;
            push_number(out, list.len() as u64)?;
            push_each(out, list.as_slice())
        }
        Bound::Coalesce(list) => {
            push_one(out, 15)?;
            push_number(out, list.len() as u64)?;
            push_each(out, list.as_slice())
        }
    }
}

#[cycle(written)]
fn push_each(out: &mut Vec<u8>, list: &[Bound]) -> Result<(), NoMemory>
    ensures { OnOk result (out.new.items ≡ out.old.items ++ concat (map written list.now)) }
{
    for e in list {
        push_written(out, e)?;
    }
    Ok(())
}

fn kind_code(kind: AggregateKind) -> u8
    ensures { result ≡ kind_written kind }
{
    match kind {
        AggregateKind::Count => 0,
        AggregateKind::Sum => 1,
        AggregateKind::Min => 2,
        AggregateKind::Max => 3,
    }
}

/// An aggregate.
pub fn push_aggregate(out: &mut Vec<u8>, a: &Aggregate) -> Result<(), NoMemory>
    ensures { OnOk result (out.new.items ≡ out.old.items ++ aggregate_written a.now) }
{
    push(out, kind_code(a.kind))?;
    match &a.of {
        None => push(out, 0),
        Some(of) => {
            push(out, 1)?;
            push_written(out, of)
        }
    }
}
