// Numbers in one to nine bytes.
ghost use Rattle.std.specs.Prelude.{◌≡◌, ◌++◌, ◌≤◌, ◌^◌, ◌<◌, length, OnOk, IfSome};
ghost use Rattle.std.specs.Option.{option_map};
ghost use Rattle.hc_record.specs.Varint.{varint, varint_len, marked, read_varint};

use hc_value::NoMemory;

/// How many bytes a number takes.
#[tactic(auto, unfolding(crate::specs::Varint::varint_len))]
pub fn varint_len(n: u64) -> u64
    ensures { result ≡ varint_len n }
{
    if n < 1 << 7 {
        1
    } else if n < 1 << 14 {
        2
    } else if n < 1 << 21 {
        3
    } else if n < 1 << 28 {
        4
    } else if n < 1 << 35 {
        5
    } else if n < 1 << 42 {
        6
    } else if n < 1 << 49 {
        7
    } else if n < 1 << 56 {
        8
    } else {
        9
    }
}

/// Writes a number after what is there.
pub fn push_varint(out: &mut Vec<u8>, n: u64) -> Result<(), NoMemory>
    ensures { OnOk result (out.new.items ≡ out.old.items ++ varint n) }
{
    if n < 1 << 56 {
        push_marked(out, varint_len(n) - 1, n >> 7)?;
        out.extend_from_slice(&[(n % 128) as u8])
    } else {
        push_marked(out, 8, n >> 8)?;
        out.extend_from_slice(&[(n % 256) as u8])
    }
}

// Writes the low groups of seven bits, each marked.
fn push_marked(out: &mut Vec<u8>, groups: u64, n: u64) -> Result<(), NoMemory>
    requires { groups ≤ 8 }
    ensures { OnOk result (out.new.items ≡ out.old.items ++ marked groups n) }
{
    let mut left = groups;
    while left > 0 {
        left -= 1;
        out.push(128 + ((n >> (7 * left)) % 128) as u8)?;
    }
    Ok(())
}

/// The number at the front of the bytes, in any form, and what follows it.
pub fn split_varint(bytes: &[u8]) -> Option<(u64, &[u8])>
    ensures read { option_map (λ found. (found.0, found.1.now)) result ≡ read_varint 8 0 bytes.now }
    ensures shorter { IfSome result (λ found. length found.1.now < length bytes.now) }
{
    let mut n: u64 = 0;
    let mut rest = bytes;
    for _ in 0..8u32 {
        let (b, after) = rest.split_first()?;
        if *b < 128 {
            return Some((n * 128 + u64::from(*b), after));
        }
        n = n * 128 + u64::from(*b - 128);
        rest = after;
    }
    let (b, after) = rest.split_first()?;
    Some((n * 256 + u64::from(*b), after))
}
