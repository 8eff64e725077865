/// The storage class of a value.
#[derive(Clone, Copy, Debug, PartialEq, Eq)]
pub enum Class {
    /// `INTEGER`.
    Int,
    /// `TEXT`.
    Text,
    /// `BLOB`.
    Blob,
    /// The class of `NULL` alone.
    Null,
}
