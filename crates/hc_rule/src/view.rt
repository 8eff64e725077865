//! What a seat knows.
use hc_base::{Cid, Logical, Phys, SeatWord, Tid, TidWord};
use hc_core::Account;
use std::collections::LinkedList;

/// Whose seat it is.
#[derive(Drop)]
pub enum Role {
    /// It deals a seat to each connection; those below this number have theirs.
    Dealer { dealt: u32 },
    /// The connection's.
    Connection(u32),
    /// A note from one seat to another, or a seat that was joined to another.
    Nobody,
}

/// The account of another connection, as far as a seat was told.
#[derive(Drop)]
pub struct Told {
    pub conn: u32,
    pub account: Account,
}

/// A page, the next page that its word names where it is owned, 0 at the end, and its row.
#[derive(Drop)]
pub struct Row {
    pub page: Phys,
    pub next: u32,
    pub words: LinkedList<u64>,
}

/// A word of the table, by its place, as a step found it.
#[derive(Drop)]
pub struct Found {
    pub place: u64,
    pub word: u64,
}

/// What was claimed.
#[derive(Drop)]
pub enum Claimed {
    Page(Phys),
    Number(Logical),
}

/// What was claimed, and the id of the transaction that it was claimed for, where that had drawn one.
#[derive(Drop)]
pub struct Claim {
    pub tid: Option<Tid>,
    pub claimed: Claimed,
}

/// What a seat found of a transaction: its id, its word, and how much of the log the seat had seen then.
#[derive(Drop)]
pub struct SeenWord {
    pub tid: Tid,
    pub word: TidWord,
    pub seen: Cid,
}

/// A place of the log that a seat found taken, and the id there.
#[derive(Drop)]
pub struct SeenPlace {
    pub cid: Cid,
    pub tid: Tid,
}

/// What a seat knows. Contracts alone see it, and no code makes one. All lists have the newest first.
#[derive(Drop)]
pub struct View {
    pub role: Role,
    /// The account of its own connection, where it has one.
    pub account: Account,
    /// The accounts of other connections that it was told of.
    pub told: LinkedList<Told>,
    /// How many places of the log it has seen taken.
    pub seen: Cid,
    /// The word of its connection.
    pub stage: SeatWord,
    /// The id that its open transaction has drawn.
    pub own: Option<Tid>,
    /// The word of that id, and `Empty` where there is none.
    pub word: TidWord,
    /// The words of ids, as it found them.
    pub words: LinkedList<SeenWord>,
    /// The places of the log that it found taken.
    pub places: LinkedList<SeenPlace>,
    /// The pages that it reached since its transaction began, with their rows.
    pub loaded: LinkedList<Row>,
    /// The pages that it knows to be replaced. No step fills this list yet.
    pub replaced: LinkedList<Phys>,
    /// The pages that it owns, with what it wrote.
    pub pages: LinkedList<Row>,
    /// The pages whose words say that they are mapped, and that the map is about to name. No step fills this list yet.
    pub ready: LinkedList<Row>,
    /// The pages that its transaction replaced while it is undecided. No step fills this list yet.
    pub pending: LinkedList<Phys>,
    /// The logical numbers in its hand. No step fills this list yet.
    pub numbers: LinkedList<Logical>,
    /// The words of pages, as its steps found them, and those of ids and of the log that they found empty.
    pub found: LinkedList<Found>,
    /// What it claimed.
    pub claimed: LinkedList<Claim>,
}
