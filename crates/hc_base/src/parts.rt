//! The parts of a word of the map, of a page or of a seat.
ghost use Rattle.std.specs.Prelude.{◌≡◌, IfSome, IfNone};
ghost use Rattle.hc_base.specs.Words.{HasNoParts, word_of_parts};

/// A tag in the top 8 bits, a seat in bits 32 to 39, and a number in the low 32.
#[derive(Debug, Clone, Copy, PartialEq, Eq)]
pub struct Parts {
    pub tag: u8,
    pub seat: u8,
    pub number: u32,
}

const TAG: u64 = 1 << 56;

const UNUSED: u64 = 1 << 40;

const SEAT: u64 = 1 << 32;

impl Parts {
    /// The parts of a word, or `None` where one of the 16 bits is set that no form uses.
    pub fn of(word: u64) -> Option<Parts>
        ensures some { IfSome result (λ parts. word ≡ word_of_parts parts.tag parts.seat parts.number) }
        ensures none { IfNone result (HasNoParts word) }
    {
        if word % TAG / UNUSED > 0 {
            return None;
        }
        Some(Parts {
            tag: (word / TAG) as u8,
            seat: (word % UNUSED / SEAT) as u8,
            number: (word % SEAT) as u32,
        })
    }
}

/// The word that has these parts, and 0 where no form has a bit.
pub fn pack_parts(tag: u8, seat: u8, number: u32) -> u64
    ensures { result ≡ word_of_parts tag seat number }
{
    u64::from(tag) * TAG + u64::from(seat) * SEAT + u64::from(number)
}
