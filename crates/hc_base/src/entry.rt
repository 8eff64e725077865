// The limit of an entry.
ghost use Rattle.std.specs.Prelude.{◌≡◌};
ghost use Rattle.hc_base.specs.Entries.{entry_fits};

/// Whether a key and a record of these lengths are within the limit of an entry.
pub fn entry_fits(key_len: u64, rec_len: u64) -> bool
    ensures { result ≡ entry_fits key_len rec_len }
{
    key_len <= 463 && rec_len <= 464 - key_len
}
