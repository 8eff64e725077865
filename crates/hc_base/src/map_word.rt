//! The word of a logical number.
ghost use Rattle.std.specs.Prelude.{◌≡◌, ◌≢◌, IfSome, IfNone};
ghost use Rattle.hc_base.specs.declared.map_word.MapWord.{MapWord as Form};
ghost use Rattle.hc_base.specs.Words.{IsMapWord, map_word};

use crate::numbers::{Logical, Phys};
use crate::parts::{Parts, pack_parts};

/// What the page map says of a logical number.
#[derive(Debug, Clone, Copy, PartialEq, Eq)]
pub enum MapWord {
    /// Nobody has it.
    Free,
    /// A seat has claimed it; `next` is the next number that this seat has claimed, 0 at the end.
    Claimed { seat: u8, next: u32 },
    /// It names this page.
    Page(Phys),
    /// Its page was taken out of the tree; its keys belong to the page of this number or further left.
    Evicted(Logical),
}

impl MapWord {
    /// The form's word: the tag 0 to 3 in the top 8 bits, a seat in bits 32 to 39, a number in the low 32.
    /// Page and logical numbers are counted from 1.
    pub fn pack(self) -> u64
        requires { IsMapWord self }
        ensures { result ≡ map_word self }
    {
        match self {
            MapWord::Free => 0,
            MapWord::Claimed { seat, next } => pack_parts(1, seat, next),
            MapWord::Page(page) => pack_parts(2, 0, page.0),
            MapWord::Evicted(left) => pack_parts(3, 0, left.0),
        }
    }

    /// The form of a word, or `None` exactly where no form has this word.
    pub fn unpack(word: u64) -> Option<MapWord>
        ensures some { IfSome result (λ form. IsMapWord form × (map_word form ≡ word)) }
        ensures none { IfNone result ((form : Form) → IsMapWord form → map_word form ≢ word) }
    {
        let parts = Parts::of(word)?;
        match (parts.tag, parts.seat, parts.number) {
            (0, 0, 0) => Some(MapWord::Free),
            (1, seat, next) => Some(MapWord::Claimed { seat, next }),
            (2, 0, 1..) => Some(MapWord::Page(Phys(parts.number))),
            (3, 0, 1..) => Some(MapWord::Evicted(Logical(parts.number))),
            _ => None,
        }
    }
}
