ghost use Rattle.std.specs.Prelude.{◌≡◌};
ghost use Rattle.hc_reply.specs.declared.mismatch.Mismatch.TheVariants.{NoMemory};

use std::alloc::{AllocError, AllocFailed};

/// Why a part was not read.
#[derive(Debug, Drop)]
pub enum Mismatch<'a> {
    /// No part goes on with the first of these bytes, or with their end.
    At(&'a [u8]),
    /// An allocation was refused.
    NoMemory,
}

impl From<AllocError> for Mismatch<'_> {
    ghost from_gives = { λ _ e. e ≡ NoMemory };

    fn from(_: AllocError) -> Self {
        Mismatch::NoMemory
    }
}

impl<T: Drop> From<AllocFailed<T>> for Mismatch<'_> {
    ghost from_gives = { λ _ e. e ≡ NoMemory };

    fn from(_: AllocFailed<T>) -> Self {
        Mismatch::NoMemory
    }
}
