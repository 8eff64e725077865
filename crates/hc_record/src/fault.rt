ghost use Rattle.std.specs.Prelude.{◌≡◌};
ghost use Rattle.hc_record.specs.declared.fault.RecordFault.TheVariants.{NoMemory};

use std::alloc::{AllocError, AllocFailed};
use thiserror::Error;

/// Why bytes are no record.
#[derive(Clone, Copy, Debug, PartialEq, Eq, Error)]
pub enum RecordKind {
    /// The bytes end too early, or a type runs past the header. At that end.
    #[error("the bytes end too early")]
    Short,
    /// A type that no value has: 7, 10 or 11. At the type.
    #[error("no value has this type")]
    BadType,
    /// A number in more bytes than it takes, a header's length that no header has, or an integer whose
    /// type is not the first that holds it. At the number, at 0, or at the type.
    #[error("this is not its shortest form")]
    Spelling,
    /// A text that is not UTF-8. At the first byte of its body.
    #[error("this text is not UTF-8")]
    Utf8,
    /// Bytes after the last body. At the first of them.
    #[error("bytes follow the record")]
    Tail,
}

/// Why no list of values was read.
#[derive(Clone, Copy, Debug, PartialEq, Eq, Error)]
pub enum RecordFault {
    /// The bytes are no record. `at` is how many bytes come before the fault.
    #[error("no record: {kind} (byte {at})")]
    Bad { at: u32, kind: RecordKind },
    /// An allocation was refused.
    #[error("memory ran out")]
    NoMemory,
}

impl From<AllocError> for RecordFault {
    ghost from_gives = { λ _ e. e ≡ NoMemory };

    fn from(_: AllocError) -> RecordFault {
        RecordFault::NoMemory
    }
}

impl<T: Drop> From<AllocFailed<T>> for RecordFault {
    ghost from_gives = { λ _ e. e ≡ NoMemory };

    fn from(_: AllocFailed<T>) -> RecordFault {
        RecordFault::from(AllocError)
    }
}
