// The key and the record of a row.
ghost use Rattle.std.specs.Prelude.{◌≡◌, ℤ, FitsSigned, IfOk, Some};
ghost use Rattle.std.specs.Int.{w64};
ghost use Rattle.hc_table.specs.Rows.{row_key, row_record};

use hc_key::key_of;
use hc_range::Bytes;
use hc_record::{encode, integer_at};
use hc_value::{NoMemory, Value};
use std::alloc::Global;

/// The key of the row with an id.
///
/// # Errors
///
/// `NoMemory` where an allocation is refused.
pub fn row_key(alloc: Global, id: i64) -> Result<Bytes, NoMemory>
    ensures { IfOk result (λ key. key ≡ row_key id) }
{
    key_of(alloc, 1, &[Value::Int(id)])
}

/// The record of a row with a value.
///
/// # Errors
///
/// `NoMemory` where an allocation is refused.
pub fn row_record(alloc: Global, v: i64) -> Result<Bytes, NoMemory>
    ensures { IfOk result (λ bytes. bytes ≡ row_record v) }
{
    encode(alloc, &[Value::Null, Value::Int(v)])
}

/// The value of a row, from its record. Of other bytes it may answer anything.
pub fn value_in(bytes: &[u8]) -> Option<i64>
    ensures { (v : ℤ) → FitsSigned w64 v → bytes.now ≡ row_record v → result ≡ Some v }
{
    integer_at(bytes, 1)
}
