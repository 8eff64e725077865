// Ranges that a log covers.
ghost use Rattle.std.specs.Prelude.{ℕ, List, ◌↔◌, IsTrue};
ghost use Rattle.hc_range.specs.Ranges.{InAny};

use hc_range::{Range, ReadLog};

/// Whether a log includes each of the ranges.
pub fn includes_all(log: &ReadLog, ranges: &[Range]) -> bool
    ensures { IsTrue result ↔ ((key : List ℕ) → InAny ranges.now key → InAny log.now key) }
{
    for range in ranges {
        if !log.includes(range) {
            return false;
        }
    }
    true
}
