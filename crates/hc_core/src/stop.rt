use hc_base::Full;
use hc_range::KeyBuf;
use thiserror::Error;

/// How far a call went that goes over a range from a key on.
#[derive(Debug, Clone, Copy, PartialEq, Eq)]
pub enum Next {
    /// Up to this key, from which a further call goes on.
    More(KeyBuf),
    /// To the range's end.
    End,
}

/// Why no room could be made for the writes of a commit.
#[derive(Debug, Clone, Copy, PartialEq, Eq, Error)]
pub enum ReserveFault {
    /// Something of the store has run out.
    #[error("the store is full")]
    Full(Full),
    /// An allocation was refused.
    #[error("out of memory")]
    NoMemory,
}
