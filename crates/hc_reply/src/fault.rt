ghost use Rattle.std.specs.Prelude.{◌≡◌};
ghost use Rattle.hc_reply.specs.declared.fault.ReplyFault.TheVariants.{NoMemory};

use std::alloc::{AllocError, AllocFailed};
use thiserror::Error;

/// Why no transcripts were read.
#[derive(Clone, Copy, Debug, PartialEq, Eq, Error)]
pub enum ReplyFault {
    /// The bytes are no output. `at` is how many bytes are before the fault: the first byte with which
    /// no output goes on, or the end, where the bytes are only the beginning of one.
    #[error("no output goes on at byte {at}")]
    Bad { at: u64 },
    /// An allocation was refused.
    #[error("out of memory")]
    NoMemory,
}

impl From<AllocError> for ReplyFault {
    ghost from_gives = { λ _ e. e ≡ NoMemory };

    fn from(_: AllocError) -> ReplyFault {
        ReplyFault::NoMemory
    }
}

impl<T: Drop> From<AllocFailed<T>> for ReplyFault {
    ghost from_gives = { λ _ e. e ≡ NoMemory };

    fn from(_: AllocFailed<T>) -> ReplyFault {
        ReplyFault::NoMemory
    }
}
