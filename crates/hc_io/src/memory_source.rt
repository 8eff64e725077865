// Bytes in memory as a source: one whose reads fail where a test lists it, and one that never does.
ghost use Rattle.std.specs.Prelude.{◌≡◌, ◌+◌, ◌-◌, ◌≤◌, ◌++◌, ◌↔◌, min, length, drop, take, Some, IsOk, IsErr, IfOk, OnErr, Contains};
ghost use Rattle.hc_io.specs.Faults.{HasCause, one_more};
ghost use Rattle.hc_io.specs.Memory.{left_in, sure_left_in};
ghost use Rattle.hc_io.specs.Transfer.{Reads};

use crate::counted::counted;
use crate::listed::is_listed;
use crate::{Failed, Source};
use hc_range::Bytes;
use sqlite_items::Items;

/// Bytes in memory, some of whose reads fail.
#[derive(Debug, Drop)]
pub struct MemSource {
    /// All its bytes, those that were read too.
    pub bytes: Bytes,
    /// How many bytes were read.
    pub at: u64,
    /// How many reads were asked for. It stays at the greatest value of a u64 once it is there.
    pub calls: u64,
    /// The numbers of the reads that fail, counted from 1.
    pub fails: Items<u64>,
    /// How many reads failed, up to the greatest value of a u64.
    pub faults: u64,
}

/// Bytes in memory whose reads never fail.
#[derive(Debug, Drop)]
pub struct SureSource {
    /// All its bytes, read and unread.
    pub bytes: Bytes,
    /// How many of them were read.
    pub at: u64,
}

impl MemSource {
    /// A source at the front of the bytes, of which no read was asked for yet.
    pub fn new(bytes: Bytes, fails: Items<u64>) -> MemSource
        ensures { result ≡ record { bytes = bytes; at = 0; calls = 0; fails = fails; faults = 0 } }
    {
        MemSource {
            bytes,
            at: 0,
            calls: 0,
            fails,
            faults: 0,
        }
    }
}

impl SureSource {
    /// A source at the front of the bytes.
    pub fn new(bytes: Bytes) -> SureSource
        ensures { result ≡ record { bytes = bytes; at = 0 } }
    {
        SureSource { bytes, at: 0 }
    }
}

impl Source for MemSource {
    ghost left = { λ source. Some (left_in source) };

    ghost faults = { λ source. source.faults };

    /// It fails exactly where the number of this call is listed, and else reads all that fits.
    fn read(&mut self, buffer: &mut [u8]) -> Result<usize, Failed>
        ensures within { IfOk result (λ n. n ≤ length buffer.new) }
        ensures bytes { IfOk result (λ n. Reads (left_in self.old) (left_in self.new) buffer.new n) }
        ensures failed { OnErr result (left_in self.new ≡ left_in self.old) }
        ensures cause { HasCause self.old.faults self.new.faults result }

        // When it fails, how much it reads, and the whole source and buffer after it.
        ensures fails { IsErr result ↔ Contains self.old.fails (one_more self.old.calls) }
        ensures count { IfOk result (λ n. n ≡ min (length buffer.old) (length self.old.bytes - self.old.at)) }
        ensures ok { IfOk result (λ n. self.new ≡ record self.old {
          calls = one_more self.old.calls;
          at = self.old.at + n;
        }) }
        ensures err { OnErr result (self.new ≡ record self.old {
          calls = one_more self.old.calls;
          faults = one_more self.old.faults;
        }) }
        ensures rest { IfOk result (λ n. drop n buffer.new ≡ drop n buffer.old) }
        ensures untouched { OnErr result (buffer.new ≡ buffer.old) }
    {
        self.calls = self.calls.saturating_add(1);
        if is_listed(&self.fails, self.calls) {
            return Err(counted(&mut self.faults));
        }
        Ok(read_on(self.bytes.as_slice(), &mut self.at, buffer))
    }
}

impl Source for SureSource {
    ghost left = { λ source. Some (sure_left_in source) };

    ghost faults = { λ _. 0 };

    /// It reads all that fits.
    fn read(&mut self, buffer: &mut [u8]) -> Result<usize, Failed>
        ensures within { IfOk result (λ n. n ≤ length buffer.new) }
        ensures bytes { IfOk result (λ n. Reads (sure_left_in self.old) (sure_left_in self.new) buffer.new n) }
        ensures failed { OnErr result (sure_left_in self.new ≡ sure_left_in self.old) }
        ensures cause { HasCause 0 0 result }

        // It never fails; how much it reads, and the whole source and buffer after it.
        ensures sure { IsOk result }
        ensures count { IfOk result (λ n. n ≡ min (length buffer.old) (length self.old.bytes - self.old.at)) }
        ensures ok { IfOk result (λ n. self.new ≡ record self.old { at = self.old.at + n }) }
        ensures rest { IfOk result (λ n. drop n buffer.new ≡ drop n buffer.old) }
    {
        Ok(read_on(self.bytes.as_slice(), &mut self.at, buffer))
    }
}

// Reads from the bytes after the first `at`, as many as are left and as fit into `buffer`, and counts
// them to `at`.
fn read_on(bytes: &[u8], at: &mut u64, buffer: &mut [u8]) -> usize
    ensures count { result ≡ min (length buffer.old) (length bytes.now - at.old) }
    ensures at { at.new ≡ at.old + result }
    ensures copied { buffer.new ≡ take result (drop at.old bytes.now) ++ drop result buffer.old }
    ensures reads { Reads (drop at.old bytes.now) (drop at.new bytes.now) buffer.new result }
{
    let start = bytes.len().min(*at as usize);
    let left = &bytes[start..];
    let count = buffer.len().min(left.len());
    buffer[..count].copy_from_slice(&left[..count]);
    *at += count as u64;
    count
}
