use crate::Cid;

/// What has run out, so that a transaction cannot commit.
#[derive(Debug, Clone, Copy, PartialEq, Eq)]
pub enum Full {
    /// No page is free for it. `count` is how many pages there are, and `floor` the lowest snapshot
    /// that a running transaction still reads.
    Pages { count: u32, floor: Cid },
    /// Every logical page number is taken. The number is how many there are.
    Numbers(u32),
    /// Every transaction id was drawn. The number is how many there are.
    Transactions(u32),
}
