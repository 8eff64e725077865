use thiserror::Error;

/// Why tokens are no statement.
#[derive(Clone, Copy, Debug, PartialEq, Eq, Error)]
pub enum ParseFault {
    /// The place of the first token that no statement has there, or the text's length where the tokens
    /// end too early.
    #[error("no statement goes on with what is at byte {at}")]
    Syntax { at: u32 },
    /// The place of the token that opens the 101st level, or that begins the 1,001st operator of an
    /// expression that is part of no other.
    #[error("too many levels or operators, at byte {at}")]
    TooDeep { at: u32 },
    /// An allocation was refused.
    #[error("out of memory")]
    NoMemory,
}
