use thiserror::Error;

/// Why an expression has no value.
#[derive(Clone, Copy, Debug, PartialEq, Eq, Error)]
pub enum EvalFault {
    /// The exact result of an operation does not fit 64 bits.
    #[error("integer overflow")]
    Overflow,
    /// An allocation was refused.
    #[error("out of memory")]
    NoMemory,
}
