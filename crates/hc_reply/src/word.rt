// Fixed words at the front of bytes.
ghost use Rattle.std.specs.Prelude.{◌≡◌, ◌≤◌, ◌++◌, length, IfOk, IfErr};
ghost use Rattle.hc_reply.specs.Mismatches.{Anything, MismatchIn};
ghost use Rattle.hc_reply.specs.Words.{IsWord, common, the_word};

use crate::mismatch::Mismatch;

/// What is left after a word.
pub fn expect_word<'a>(word: &[u8], bytes: &'a [u8]) -> Result<&'a [u8], Mismatch<'a>>
    ensures found { IfOk result (λ rest. bytes.now ≡ word.now ++ rest.now) }
    ensures stop { IfErr result (MismatchIn Anything IsWord (the_word word.now) bytes.now) }
{
    let n = common(word, bytes);
    if n == word.len() {
        Ok(&bytes[n..])
    } else {
        Err(Mismatch::At(&bytes[n..]))
    }
}

/// How many bytes a word and the bytes begin with in common.
pub fn common(word: &[u8], bytes: &[u8]) -> usize
    ensures count { result ≡ common word.now bytes.now }
    ensures within { (result ≤ length word.now) × (result ≤ length bytes.now) }
{
    let Some((w, others)) = word.split_first() else {
        return 0;
    };
    let Some((b, left)) = bytes.split_first() else {
        return 0;
    };
    if *w != *b {
        return 0;
    }
    common(others, left) + 1
}
