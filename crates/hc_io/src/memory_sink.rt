// Memory as a sink, which fails where a test lists it and where its room is gone.
ghost use Rattle.std.specs.Prelude.{◌≡◌, ◌+◌, ◌-◌, ◌<◌, ◌≤◌, ◌⊎◌, ◌++◌, ◌↔◌, [], min, max, length, take, Some, IsErr, IfOk, OnOk, OnErr, Contains, vec_len, vec_capacity};
ghost use Rattle.hc_io.specs.Faults.{HasCause, one_more};

use crate::counted::counted;
use crate::listed::is_listed;
use crate::{Failed, Sink};
use hc_range::NoMemory;
use sqlite_items::Items;
use std::alloc::Global;

/// Memory to write to, of a size that was reserved. Some writes fail, and each takes few bytes.
#[derive(Debug, Drop)]
pub struct MemSink {
    /// All that was written, in order.
    pub written: Vec<u8>,
    /// How many more bytes it takes.
    pub room: u64,
    /// The most bytes that one write takes, at 0 as at 1.
    pub step: u64,
    /// How many writes were asked for. It stays at the greatest value of a u64 once it is there.
    pub calls: u64,
    /// The numbers of the writes that fail, counted from 1.
    pub fails: Items<u64>,
    /// How many writes failed, up to the greatest value of a u64.
    pub faults: u64,
    ghost reserved: { vec_len written + room ≤ vec_capacity written },
}

impl MemSink {
    /// An empty sink, with the memory for `room` bytes reserved. A write takes no more memory.
    pub fn new(alloc: Global, room: u64, step: u64, fails: Items<u64>) -> Result<MemSink, NoMemory>
        ensures written { IfOk result (λ sink. sink.written.items ≡ []) }
        ensures limits { IfOk result (λ sink. (sink.room ≡ room) × (sink.step ≡ step)) }
        ensures fails { IfOk result (λ sink. sink.fails ≡ fails) }
        ensures counts { IfOk result (λ sink. (sink.calls ≡ 0) × (sink.faults ≡ 0)) }
    {
        let written = Vec::with_capacity(alloc, room as usize)?;
        Ok(MemSink {
            written,
            room,
            step,
            fails,
            calls: 0,
            faults: 0,
        })
    }
}

impl Sink for MemSink {
    ghost written = { λ sink. Some sink.written.items };

    ghost faults = { λ sink. sink.faults };

    /// A piece that is not empty fails exactly where the number of this call is listed or no room
    /// is left. An empty one fails exactly where the number is listed.
    fn write(&mut self, piece: &[u8]) -> Result<usize, Failed>
        ensures within { IfOk result (λ n. n ≤ length piece.now) }
        ensures some { 0 < length piece.now → IfOk result (λ n. 0 < n) }
        ensures bytes { IfOk result (λ n. self.new.written.items
            ≡ self.old.written.items ++ take n piece.now) }
        ensures failed { OnErr result (self.new.written.items ≡ self.old.written.items) }
        ensures cause { HasCause self.old.faults self.new.faults result }

        // When it fails, and how much it takes.
        ensures fails { IsErr result ↔ (Contains self.old.fails (one_more self.old.calls)
            ⊎ ((0 < length piece.now) × (self.old.room ≡ 0))) }
        ensures count { IfOk result (λ n. n
            ≡ min (length piece.now) (min (max self.old.step 1) self.old.room)) }

        // The other fields after it.
        ensures room_taken { IfOk result (λ n. self.new.room + n ≡ self.old.room) }
        ensures room_kept { OnErr result (self.new.room ≡ self.old.room) }
        ensures calls { self.new.calls ≡ one_more self.old.calls }
        ensures faults { OnErr result (self.new.faults ≡ one_more self.old.faults) }
        ensures no_fault { OnOk result (self.new.faults ≡ self.old.faults) }
        ensures step { self.new.step ≡ self.old.step }
        ensures list { self.new.fails ≡ self.old.fails }
    {
        self.calls = self.calls.saturating_add(1);
        let is_full = self.room == 0 && !piece.is_empty();
        if is_full || is_listed(&self.fails, self.calls) {
            return Err(counted(&mut self.faults));
        }
        let most = self.step.max(1).min(self.room);
        let count = piece.len().min(most as usize);
        // The memory was reserved, so the vector does not grow.
        let appended = self.written.extend_from_slice(&piece[..count]);
        prove!(appended.is_ok());
        self.room -= count as u64;
        Ok(count)
    }
}
