// Why a statement cannot be bound.
ghost use Rattle.std.specs.Prelude.{◌≡◌};
ghost use Rattle.hc_bind.specs.declared.fault.BindFault.TheVariants.{NoMemory};

use hc_value::Str;
use std::alloc::{AllocError, AllocFailed};
use std::error::Error;
use std::fmt;

/// Why a statement cannot be bound: its first fault in the order of text.
#[derive(Debug, Drop)]
pub enum BindFault {
    /// No table has this name, or FROM has none that is called so. The name is as written.
    NoTable(Str),
    /// No column has this name, as written, without the table's name before it.
    NoColumn(Str),
    /// Several columns have this name, as written; or two tables of FROM are called so: an alias as written, a table's
    /// name as it was created.
    Ambiguous(Str),
    /// This column, as it was created, is named twice.
    TwoColumns(Str),
    /// No function has this name, as written, or none that has `*`.
    NoFunction(Str),
    /// Values of two classes where one is wanted.
    Mixed,
    /// An aggregate, or a column outside of one, is where none may be.
    Aggregate,
    /// So many arguments or values are given, and another number is wanted.
    Arity { given: u32, wanted: u32 },
    /// ORDER BY has the number of no item.
    NoItem(i64),
    /// With DISTINCT, a term of ORDER BY is no item.
    NotItem,
    /// An allocation was refused, or a number of columns or items is past 32 bits.
    NoMemory,
}

impl fmt::Display for BindFault {
    fn fmt<W: fmt::Write>(&self, f: &mut fmt::Formatter<W>) -> fmt::Result {
        match self {
            BindFault::NoTable(name) => write!(f, "no table {}", name.as_str()),
            BindFault::NoColumn(name) => write!(f, "no column {}", name.as_str()),
            BindFault::Ambiguous(name) => write!(f, "{} is ambiguous", name.as_str()),
            BindFault::TwoColumns(name) => write!(f, "column {} is named twice", name.as_str()),
            BindFault::NoFunction(name) => write!(f, "no function {}", name.as_str()),
            BindFault::Mixed => write!(f, "mixed classes of values"),
            BindFault::Aggregate => write!(f, "an aggregate or a column where none may be"),
            BindFault::Arity { given, wanted } => write!(
                f,
                "{given} values where {wanted} are wanted"
            ),
            BindFault::NoItem(n) => write!(f, "no item has the number {n}"),
            BindFault::NotItem => write!(f, "a term of ORDER BY is no item"),
            BindFault::NoMemory => write!(f, "out of memory"),
        }
    }
}

impl Error for BindFault {}

impl From<AllocError> for BindFault {
    ghost from_gives = { λ _ e. e ≡ NoMemory };

    fn from(_: AllocError) -> BindFault {
        BindFault::NoMemory
    }
}

impl<T: Drop> From<AllocFailed<T>> for BindFault {
    ghost from_gives = { λ _ e. e ≡ NoMemory };

    fn from(_: AllocFailed<T>) -> BindFault {
        BindFault::from(AllocError)
    }
}
