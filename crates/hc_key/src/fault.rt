ghost use Rattle.std.specs.Prelude.{◌≡◌};
ghost use Rattle.hc_key.specs.declared.fault.KeyFault.TheVariants.{NoMemory};

use std::alloc::{AllocError, AllocFailed};
use thiserror::Error;

/// Why no tree number and list of values was read.
#[derive(Clone, Copy, Debug, PartialEq, Eq, Error)]
pub enum KeyFault {
    /// The bytes are no key. `at` is how many bytes come before the fault: the first byte with which no
    /// key continues, or the end, where the bytes are only the beginning of a key.
    #[error("no key: no key continues so (byte {at})")]
    Bad { at: u32 },
    /// An allocation was refused.
    #[error("memory ran out")]
    NoMemory,
}

impl From<AllocError> for KeyFault {
    ghost from_gives = { λ _ e. e ≡ NoMemory };

    fn from(_: AllocError) -> KeyFault {
        KeyFault::NoMemory
    }
}

impl<T: Drop> From<AllocFailed<T>> for KeyFault {
    ghost from_gives = { λ _ e. e ≡ NoMemory };

    fn from(_: AllocFailed<T>) -> KeyFault {
        KeyFault::from(AllocError)
    }
}
