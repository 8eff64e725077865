use crate::Lost;

/// What an entry says beside a key and a record, or beside the ends of a part.
#[derive(Clone, Copy)]
pub enum Said {
    Began { conn: u32, snapshot: u32 },
    Drew { conn: u32, ord: u32, tid: u32 },
    /// A put of a key, with a record or a tombstone.
    Put { conn: u32 },
    Proposed { conn: u32, number: u32 },
    /// A check of a part, from a key up to an upper end.
    Checked { conn: u32 },
    Decided { conn: u32, number: u32 },
    Lost { conn: u32, lost: Lost },
    /// A key was taken back.
    Unput { conn: u32 },
    Ended { conn: u32 },
}
