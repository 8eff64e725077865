ghost use Rattle.std.specs.Prelude.{◌≡◌, [], Some, IsSome};
ghost use Rattle.hc_core.specs.Running.{holds_key};

use crate::Write;
use crate::write_set::WriteSet;
use hc_range::ReadLog;
use hc_reads::Reads;
use std::alloc::Global;

/// What the machine keeps of a connection's open transaction. The numbers count from 1: 0 says that no
/// id was drawn, that nothing is proposed, and that the transaction is not decided.
#[derive(Drop)]
pub struct Running {
    pub tid: u32,
    pub ord: u32,
    pub snapshot: u32,
    pub proposed: u32,
    pub place: u32,
    /// The keys that it read.
    pub reads: Reads,
    /// The write set, until it is decided, and the writes for which there is room.
    pub writes: WriteSet,
    /// The keys that were checked for the proposal.
    pub checked: ReadLog,
}

impl Running {
    /// A transaction that has just begun.
    pub fn new(alloc: Global, snapshot: u32) -> Running
        ensures numbers { (result.tid ≡ 0) × (result.ord ≡ 0) × (result.snapshot ≡ snapshot) × (result.proposed ≡ 0) × (result.place ≡ 0) }
        ensures empty { (result.reads ≡ []) × (result.writes.put ≡ []) × (result.writes.all ≡ []) × (result.checked ≡ []) }
    {
        Running {
            tid: 0,
            ord: 0,
            snapshot,
            proposed: 0,
            place: 0,
            reads: Reads::new(alloc),
            writes: WriteSet::of(Vec::new(alloc)),
            checked: ReadLog::new(alloc),
        }
    }

    /// Puts a proposal in place of the one before it, or none where the number is 0. What was checked for the one before
    /// it counts no more.
    pub fn set_proposal(&mut self, number: u32)
        ensures { self.new ≡ record self.old { proposed = number; checked = [] } }
    {
        self.proposed = number;
        self.checked.clear();
    }
}

/// The open transaction, taken out for a change.
pub fn taken(running: &mut Option<Running>) -> Running
    requires { IsSome running.old }
    ensures { running.old ≡ Some result }
{
    let Some(open) = running.take() else {
        unreachable!()
    };
    open
}

/// Whether a key is among the writes.
pub fn has_key(writes: &[Write], key: &[u8]) -> bool
    ensures { result ≡ holds_key key.now writes.now }
{
    writes.iter().any(|write| write.key.as_slice() == key)
}
