//! A key that is sought, in words.
ghost use Rattle.std.specs.Prelude.{◌≡◌, ◌*◌, ◌<◌, ◌^◌, drop, length, slice_index};
ghost use Rattle.hc_base.specs.Layout.{word};
ghost use Rattle.hc_page.specs.Packed.{ArePacked, AreAllBytes};

// How many words a key of the longest kind has.
const WORDS: usize = 58;

/// A key that is sought, put into words once, for a look-up in each page of a descent. A key of up to 464 bytes is; of a
/// longer one the front is.
#[derive(Clone, Copy)]
pub struct Sought<'a> {
    /// The key.
    pub bytes: &'a [u8],
    words: [u64; 58],
    ghost packed: { ArePacked words bytes.now },
    ghost are_bytes: { AreAllBytes bytes.now },
}

impl<'a> Sought<'a> {
    /// The key in words.
    pub fn of(bytes: &'a [u8]) -> Sought<'a>
        ensures { result.bytes.now ≡ bytes.now }
    {
        let mut words = [0; 58];
        for j in 0..WORDS {
            words[j] = word_from(bytes, 8 * j);
        }
        Sought { bytes, words }
    }

    /// How many bytes it has.
    pub fn len(&self) -> usize
        ensures { result ≡ length self.now.bytes.now }
    {
        self.bytes.len()
    }

    // Word j of the key, and 0 after its end.
    pub fn word(&self, j: usize) -> u64
        requires { j < 2 ^ 61 }
        ensures word { result ≡ word 8 (drop (8 * j) self.now.bytes.now) }
        ensures bytes { AreAllBytes self.now.bytes.now }
    {
        if j < WORDS {
            return self.words[j];
        }
        word_from(self.bytes, 8 * j)
    }
}

/// The word of the first eight bytes, the first the highest, and 0 for bytes that are not there.
pub fn first_word(bytes: &[u8]) -> u64
    ensures { result ≡ word 8 bytes.now }
{
    let high = byte(bytes, 0) * (1 << 24)
        + byte(bytes, 1) * (1 << 16)
        + byte(bytes, 2) * (1 << 8)
        + byte(bytes, 3);
    let low = byte(bytes, 4) * (1 << 24)
        + byte(bytes, 5) * (1 << 16)
        + byte(bytes, 6) * (1 << 8)
        + byte(bytes, 7);
    high * (1 << 32) + low
}

fn byte(bytes: &[u8], at: usize) -> u64
    ensures byte { result ≡ slice_index bytes.now at }
    ensures small { result < 256 }
{
    match bytes.get(at) {
        Some(byte) => u64::from(*byte),
        None => 0,
    }
}

/// The word of the eight bytes from a place on.
pub fn word_from(bytes: &[u8], at: usize) -> u64
    ensures { result ≡ word 8 (drop at bytes.now) }
{
    match bytes.get(at..) {
        Some(rest) => first_word(rest),
        None => 0,
    }
}
