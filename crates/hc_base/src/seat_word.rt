//! The word of a connection's seat.
ghost use Rattle.std.specs.Prelude.{◌≡◌, ◌≢◌, IfSome, IfNone};
ghost use Rattle.hc_base.specs.declared.seat_word.SeatWord.{SeatWord as Form};
ghost use Rattle.hc_base.specs.Words.{IsSeatWord, seat_word};

use crate::numbers::Cid;
use crate::parts::{Parts, pack_parts};

/// What a seat reads.
#[derive(Debug, Clone, Copy, PartialEq, Eq)]
pub enum SeatWord {
    /// It has no transaction.
    Idle,
    /// It is about to take a snapshot.
    Starting,
    /// It reads this snapshot, 0 before the first commit.
    Snapshot(Cid),
}

impl SeatWord {
    /// The form's word: the tag 0 to 2 in the top 8 bits, the snapshot in the low 32.
    pub fn pack(self) -> u64
        requires { IsSeatWord self }
        ensures { result ≡ seat_word self }
    {
        match self {
            SeatWord::Idle => 0,
            SeatWord::Starting => pack_parts(1, 0, 0),
            SeatWord::Snapshot(snapshot) => pack_parts(2, 0, snapshot.0),
        }
    }

    /// The form of a word, or `None` exactly where no form has this word.
    pub fn unpack(word: u64) -> Option<SeatWord>
        ensures some { IfSome result (λ form. IsSeatWord form × (seat_word form ≡ word)) }
        ensures none { IfNone result ((form : Form) → IsSeatWord form → seat_word form ≢ word) }
    {
        let parts = Parts::of(word)?;
        match (parts.tag, parts.seat, parts.number) {
            (0, 0, 0) => Some(SeatWord::Idle),
            (1, 0, 0) => Some(SeatWord::Starting),
            (2, 0, snapshot) => Some(SeatWord::Snapshot(Cid(snapshot))),
            _ => None,
        }
    }
}
