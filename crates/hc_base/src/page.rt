//! A page and the numbers by which a version names an older one.
use crate::numbers::Phys;

/// How many words a page has.
pub const PAGE_WORDS: usize = 256;

/// A page: 256 words. What they stand for is its content (`specs/Content.antt`), and which words stand for a content is
/// its layout (`specs/Layout.antt`).
#[derive(Debug, Clone, Copy, PartialEq, Eq)]
pub struct Page {
    pub words: [u64; PAGE_WORDS],
}

/// Where the version before another one of the same key is: an entry of a page that was replaced.
#[derive(Debug, Clone, Copy, PartialEq, Eq)]
pub struct Older {
    pub page: Phys,
    /// The entry's number on that page, from 0.
    pub slot: u16,
}
