ghost use Rattle.std.specs.Prelude.{◌≡◌};
// Why a reader stops.
use std::alloc::{AllocError, AllocFailed};

/// Why a reader stops. The cursor is then before the token that is at fault.
#[derive(Debug, Drop)]
pub enum Stop {
    /// No statement has the token there.
    Unexpected,
    /// It opens a level or begins an operator for which there is no room.
    TooDeep,
    /// An allocation was refused.
    NoMemory,
}

impl From<AllocError> for Stop {
    ghost use Rattle.hc_parse.specs.declared.stop.Stop.TheVariants.{NoMemory};

    ghost from_gives = { λ _ e. e ≡ NoMemory };

    fn from(_: AllocError) -> Self {
        Stop::NoMemory
    }
}

impl<T: Drop> From<AllocFailed<T>> for Stop {
    ghost use Rattle.hc_parse.specs.declared.stop.Stop.TheVariants.{NoMemory};

    ghost from_gives = { λ _ e. e ≡ NoMemory };

    fn from(_: AllocFailed<T>) -> Self {
        Stop::NoMemory
    }
}
