//! The word of a physical page.
ghost use Rattle.std.specs.Prelude.{◌≡◌, ◌≢◌, IfSome, IfNone};
ghost use Rattle.hc_base.specs.declared.page_word.PageWord.{PageWord as Form};
ghost use Rattle.hc_base.specs.Words.{IsPageWord, page_word};

use crate::numbers::{Cid, Logical};
use crate::parts::{Parts, pack_parts};

/// The state of a physical page.
#[derive(Debug, Clone, Copy, PartialEq, Eq)]
pub enum PageWord {
    /// Nobody has it.
    Free,
    /// A seat has it and writes it; `next` is the next page that this seat owns, 0 at the end.
    Owned { seat: u8, next: u32 },
    /// The page map names it at this number, or is about to.
    Mapped(Logical),
    /// A transaction of a seat replaced it and is undecided; `next` is the next such page, 0 at the end.
    Pending { seat: u8, next: u32 },
    /// It was replaced, and no reader of a snapshot at or above this stamp may reach it. The stamp may be 0.
    Limbo(Cid),
}

impl PageWord {
    /// The form's word: the tag 0 to 4 in the top 8 bits, a seat in bits 32 to 39, a number in the low 32.
    /// Logical numbers are counted from 1.
    pub fn pack(self) -> u64
        requires { IsPageWord self }
        ensures { result ≡ page_word self }
    {
        match self {
            PageWord::Free => 0,
            PageWord::Owned { seat, next } => pack_parts(1, seat, next),
            PageWord::Mapped(number) => pack_parts(2, 0, number.0),
            PageWord::Pending { seat, next } => pack_parts(3, seat, next),
            PageWord::Limbo(stamp) => pack_parts(4, 0, stamp.0),
        }
    }

    /// The form of a word, or `None` exactly where no form has this word.
    pub fn unpack(word: u64) -> Option<PageWord>
        ensures some { IfSome result (λ form. IsPageWord form × (page_word form ≡ word)) }
        ensures none { IfNone result ((form : Form) → IsPageWord form → page_word form ≢ word) }
    {
        let parts = Parts::of(word)?;
        match (parts.tag, parts.seat, parts.number) {
            (0, 0, 0) => Some(PageWord::Free),
            (1, seat, next) => Some(PageWord::Owned { seat, next }),
            (2, 0, 1..) => Some(PageWord::Mapped(Logical(parts.number))),
            (3, seat, next) => Some(PageWord::Pending { seat, next }),
            (4, 0, stamp) => Some(PageWord::Limbo(Cid(stamp))),
            _ => None,
        }
    }
}
