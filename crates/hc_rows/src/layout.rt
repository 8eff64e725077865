//! The words of the table, in the order of their places.
//!
//! ```text
//! 16                a word for each connection, 16 words apart from all others
//! then              the rows: 256 words for each page
//! then              a word for each page
//! then              a word for each logical number
//! then              a word for each transaction id, 8 words apart
//! then              a word for each commit number, and one that stays empty
//! ```
ghost use Rattle.std.specs.Prelude.{◌≡◌, ◌<◌, ◌≤◌};
ghost use Rattle.hc_rows.specs.Places.{IsLayout, HasPage, HasNumber, HasTid, HasPlace, rows_from, page_from, map_from, tid_from, log_from, total, seat_at, row_at, page_at, map_at, tid_at, log_at};

use hc_base::{Cid, Logical, Phys, Tid};

/// How many of each kind there are. Connections are counted from 0, all else from 1.
#[derive(Debug, Clone, Copy, PartialEq, Eq)]
pub struct Layout {
    /// Physical pages, 2 to 262,144.
    pub pages: u32,
    /// Logical numbers, 2 to 1,048,576.
    pub numbers: u32,
    /// Transaction ids, 1 to 65,535.
    pub transactions: u32,
    /// Connections, 1 to 65.
    pub seats: u32,
}

impl Layout {
    /// How many words the table has. Some are no word of anything.
    #[tactic(auto, unfolding(crate::specs::Places::total))]
    pub fn total(&self) -> u64
        requires layout { IsLayout self.now }
        ensures { result ≡ total self.now }
    {
        self.log_from() + u64::from(self.transactions) + 1
    }

    /// The place of a connection's word.
    #[tactic(auto, unfolding(crate::specs::Places::seat_at))]
    pub fn seat_at(&self, conn: u32) -> u64
        requires conn { conn < self.now.seats }
        ensures { result ≡ seat_at self.now conn }
    {
        16 + 16 * u64::from(conn)
    }

    /// The place of a word of a page's row.
    #[tactic(auto, unfolding(crate::specs::Places::row_at))]
    pub fn row_at(&self, p: Phys, word: u16) -> u64
        requires layout { IsLayout self.now }
        requires page { HasPage self.now p.0 }
        requires word { word < 256 }
        ensures { result ≡ row_at self.now p.0 word }
    {
        self.rows_from() + 256 * u64::from(p.0 - 1) + u64::from(word)
    }

    /// The place of a page's word.
    #[tactic(auto, unfolding(crate::specs::Places::page_at))]
    pub fn page_at(&self, p: Phys) -> u64
        requires layout { IsLayout self.now }
        requires page { HasPage self.now p.0 }
        ensures { result ≡ page_at self.now p.0 }
    {
        self.page_from() + u64::from(p.0 - 1)
    }

    /// The place of a logical number's word.
    #[tactic(auto, unfolding(crate::specs::Places::map_at))]
    pub fn map_at(&self, l: Logical) -> u64
        requires layout { IsLayout self.now }
        requires number { HasNumber self.now l.0 }
        ensures { result ≡ map_at self.now l.0 }
    {
        self.map_from() + u64::from(l.0 - 1)
    }

    /// The place of a transaction's word.
    #[tactic(auto, unfolding(crate::specs::Places::tid_at))]
    pub fn tid_at(&self, t: Tid) -> u64
        requires layout { IsLayout self.now }
        requires tid { HasTid self.now t.0 }
        ensures { result ≡ tid_at self.now t.0 }
    {
        self.tid_from() + 8 * u64::from(t.0 - 1)
    }

    /// The place of a commit number's word. One more than there are transactions has one.
    #[tactic(auto, unfolding(crate::specs::Places::log_at))]
    pub fn log_at(&self, c: Cid) -> u64
        requires layout { IsLayout self.now }
        requires place { HasPlace self.now c.0 }
        ensures { result ≡ log_at self.now c.0 }
    {
        self.log_from() + u64::from(c.0 - 1)
    }

    fn rows_from(&self) -> u64
        requires layout { IsLayout self.now }
        ensures { result ≡ rows_from self.now }
    {
        16 + 16 * u64::from(self.seats)
    }

    fn page_from(&self) -> u64
        requires layout { IsLayout self.now }
        ensures { result ≡ page_from self.now }
    {
        self.rows_from() + 256 * u64::from(self.pages)
    }

    fn map_from(&self) -> u64
        requires layout { IsLayout self.now }
        ensures { result ≡ map_from self.now }
    {
        self.page_from() + u64::from(self.pages)
    }

    fn tid_from(&self) -> u64
        requires layout { IsLayout self.now }
        ensures { result ≡ tid_from self.now }
    {
        self.map_from() + u64::from(self.numbers)
    }

    fn log_from(&self) -> u64
        requires layout { IsLayout self.now }
        ensures { result ≡ log_from self.now }
    {
        self.tid_from() + 8 * u64::from(self.transactions)
    }
}
