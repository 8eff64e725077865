// What follows from the definitions alone. Each law is the contract of a function that does nothing.
ghost use Rattle.std.specs.Prelude.{◌≡◌, ◌≤◌, ℕ, true};
ghost use Rattle.hc_base.specs.Entries.{entry_fits};
ghost use Rattle.hc_base.specs.Laws.{MapWordsDiffer, PageWordsDiffer, SeatWordsDiffer, TidWordsDiffer};

/// Two forms of a map word do not have one word. So `unpack` of what `pack` gives is the form itself.
pub fn map_words_differ()
    ensures { MapWordsDiffer }
{}

/// The same of the words of physical pages.
pub fn page_words_differ()
    ensures { PageWordsDiffer }
{}

/// The same of the words of seats.
pub fn seat_words_differ()
    ensures { SeatWordsDiffer }
{}

/// The same of the words of transaction ids.
pub fn tid_words_differ()
    ensures { TidWordsDiffer }
{}

/// Whatever the limit is, a key of an entry has at most 463 bytes.
pub fn a_fitting_key_is_short()
    ensures { (key_len rec_len : ℕ) → entry_fits key_len rec_len ≡ true → key_len ≤ 463 }
{}
