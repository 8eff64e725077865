/// A transaction id. It is drawn by a transaction that has something to commit.
#[derive(Debug, Clone, Copy, PartialEq, Eq)]
pub struct Tid(pub u32);

/// A commit number: the place of a committed transaction among all commits. As a snapshot, 0 is the
/// time before the first.
#[derive(Debug, Clone, Copy, PartialEq, Eq)]
pub struct Cid(pub u32);

/// A physical page number: a page's place in memory.
#[derive(Debug, Clone, Copy, PartialEq, Eq)]
pub struct Phys(pub u32);

/// A logical page number. A page keeps it when its content moves to another place.
#[derive(Debug, Clone, Copy, PartialEq, Eq)]
pub struct Logical(pub u32);
