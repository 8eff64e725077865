//! The word of a transaction id.
ghost use Rattle.std.specs.Prelude.{◌≡◌, ◌≢◌, ◌<◌, ◌^◌, IfSome, IfNone};
ghost use Rattle.hc_base.specs.declared.tid_word.TidWord.{TidWord as Form};
ghost use Rattle.hc_base.specs.Words.{IsTidWord, tid_word, tid_parts};

use crate::numbers::Cid;

/// The state of a transaction, with the connection that drew its id and its ordinal there.
#[derive(Debug, Clone, Copy, PartialEq, Eq)]
pub enum TidWord {
    /// No transaction has drawn the id.
    Empty,
    /// It may still put versions.
    Live { conn: u32, ord: u32 },
    /// It proposes to commit at place `c` of the log.
    Validating { conn: u32, ord: u32, c: Cid },
    /// It is committed at place `c`.
    Committed { conn: u32, ord: u32, c: Cid },
    /// It ended without a commit, and no version of it is left.
    RolledBack { conn: u32, ord: u32 },
}

const TAG: u64 = 1 << 61;

const CONN: u64 = 1 << 54;

const ORD: u64 = 1 << 37;

const UNUSED: u64 = 1 << 32;

impl TidWord {
    /// The form's word: the tag 0 to 4 in the top 3 bits, then 7 bits of the connection, 17 bits of the ordinal, 5 bits
    /// that are 0, and 32 bits of the commit number, 0 in the forms that name none. Ordinals and commit numbers are
    /// counted from 1, connections from 0.
    pub fn pack(self) -> u64
        requires { IsTidWord self }
        ensures { result ≡ tid_word self }
    {
        match self {
            TidWord::Empty => 0,
            TidWord::Live { conn, ord } => pack_tid(1, conn, ord, 0),
            TidWord::Validating { conn, ord, c } => pack_tid(2, conn, ord, c.0),
            TidWord::Committed { conn, ord, c } => pack_tid(3, conn, ord, c.0),
            TidWord::RolledBack { conn, ord } => pack_tid(4, conn, ord, 0),
        }
    }

    /// The form of a word, or `None` exactly where no form has this word.
    pub fn unpack(word: u64) -> Option<TidWord>
        ensures some { IfSome result (λ form. IsTidWord form × (tid_word form ≡ word)) }
        ensures none { IfNone result ((form : Form) → IsTidWord form → tid_word form ≢ word) }
    {
        if word == 0 {
            return Some(TidWord::Empty);
        }
        let conn = (word % TAG / CONN) as u32;
        let ord = (word % CONN / ORD) as u32;
        let c = Cid((word % UNUSED) as u32);
        if ord == 0 || word % ORD / UNUSED > 0 {
            return None;
        }
        match (word / TAG, c.0) {
            (1, 0) => Some(TidWord::Live { conn, ord }),
            (2, 1..) => Some(TidWord::Validating { conn, ord, c }),
            (3, 1..) => Some(TidWord::Committed { conn, ord, c }),
            (4, 0) => Some(TidWord::RolledBack { conn, ord }),
            _ => None,
        }
    }
}

// The word that has these parts.
fn pack_tid(tag: u64, conn: u32, ord: u32, c: u32) -> u64
    requires tag { tag < 2 ^ 3 }
    requires conn { conn < 2 ^ 7 }
    requires ord { ord < 2 ^ 17 }
    ensures { result ≡ tid_parts tag conn ord c }
{
    tag * TAG + u64::from(conn) * CONN + u64::from(ord) * ORD + u64::from(c)
}
