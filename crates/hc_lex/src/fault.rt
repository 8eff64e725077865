ghost use Rattle.std.specs.Prelude.{◌≡◌};

use crate::NoMemory;
use std::alloc::AllocFailed;
use thiserror::Error;

/// What is wrong at a place where no token begins.
#[derive(Clone, Copy, Debug, PartialEq, Eq, Error)]
pub enum LexKind {
    /// A character that begins no token, or one that may not follow a number. The place is its own.
    #[error("a character that begins no token")]
    Char,
    /// A text or a quoted name that does not end. The place is that of its opening quote.
    #[error("a quote that is not closed")]
    OpenText,
    /// `x'` or `X'` without an even number of hexadecimal digits and a quote after it. The place is
    /// that of the letter.
    #[error("a blob without pairs of hexadecimal digits and a quote")]
    BadBlob,
    /// A number above 9223372036854775808. The place is that of its first digit.
    #[error("a number that is too large")]
    TooLarge,
}

/// A fault, told by how many bytes on it is.
#[derive(Clone, Copy, Debug)]
pub struct Flaw {
    /// In bytes, from where no token begins.
    pub offset: usize,
    pub kind: LexKind,
}

impl Flaw {
    /// A fault at the first byte.
    pub fn at_front(kind: LexKind) -> Flaw
        ensures { result ≡ record { offset = 0; kind = kind } }
    {
        Flaw { offset: 0, kind }
    }
}

/// Why a text has no tokens.
#[derive(Clone, Copy, Debug, PartialEq, Eq, Error)]
pub enum LexFault {
    /// The fault of least place, in bytes from the text's start.
    #[error("{kind}, at byte {at}")]
    Bad { at: u32, kind: LexKind },
    /// An allocation was refused.
    #[error("out of memory")]
    NoMemory,
}

impl From<NoMemory> for LexFault {
    ghost use Rattle.hc_lex.specs.declared.fault.LexFault.TheVariants.{NoMemory};
    ghost use Rattle.std.specs.Prelude.{◌≡◌};

    ghost from_gives = { λ _ e. e ≡ NoMemory };

    fn from(_error: NoMemory) -> LexFault {
        LexFault::NoMemory
    }
}

impl<T: Drop> From<AllocFailed<T>> for LexFault {
    ghost use Rattle.hc_lex.specs.declared.fault.LexFault.TheVariants.{NoMemory};
    ghost use Rattle.std.specs.Prelude.{◌≡◌};

    ghost from_gives = { λ _ e. e ≡ NoMemory };

    fn from(_failed: AllocFailed<T>) -> LexFault {
        LexFault::NoMemory
    }
}
