// Names that are reserved, and names in keys.
ghost use Rattle.std.specs.Prelude.{◌≡◌, ◌↔◌, IsTrue, IfOk};
ghost use Rattle.hc_schema.specs.Tables.{IsReserved, automatic_name};
ghost use Rattle.hc_schema.specs.Cells.{key_name};

use hc_value::{NoMemory, Str, Value};
use std::alloc::Global;

/// Whether a name begins with `sqlite_`, in letters of any case. Only the engine gives such names.
pub fn is_reserved(name: &str) -> bool
    ensures { IsTrue result ↔ IsReserved name.now }
{
    let bytes = name.as_bytes();
    bytes.len() >= 7 && bytes[..7].eq_ignore_ascii_case(b"sqlite_")
}

/// The name of the n-th index that the rules of a table make, counted from 1.
pub fn automatic_name(alloc: Global, table: &str, n: u64) -> Result<Str, NoMemory>
    ensures { IfOk result (λ name. name ≡ automatic_name table.now n) }
{
    Ok(Str::from_string(format!(in alloc; "sqlite_autoindex_{table}_{n}")?))
}

/// A name as keys have it: in lower case.
pub fn key_name(alloc: Global, name: &str) -> Result<Value, NoMemory>
    ensures { IfOk result (λ value. value ≡ key_name name.now) }
{
    Ok(Value::Text(Str::from_string(name.to_ascii_lowercase(alloc)?)))
}
