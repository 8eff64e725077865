// What is kept of an open transaction tells which events are enabled.
ghost use Rattle.std.specs.Prelude.{◌≡◌, ◌≢◌, ◌⊎◌, ◌↔◌, [], IsTrue};
ghost use Rattle.hc_core.specs.Running.{MayDecide, MayPut};

use crate::running::Running;

/// Whether a transaction may put a key.
pub fn may_put(running: &Running, key: &[u8]) -> bool
    ensures { IsTrue result ↔ MayPut running.now key.now }
{
    running.tid != 0 && running.place == 0 && running.proposed == 0 && !running.writes.has(key)
}

/// Whether something is proposed, it is not decided, and what was read was checked for it.
pub fn may_decide(running: &Running) -> bool
    ensures { IsTrue result ↔ MayDecide running.now }
{
    running.proposed != 0 && running.place == 0 && running.reads.is_within(&running.checked)
}

/// Whether it is decided, or its write set is empty.
pub fn may_end(running: &Running) -> bool
    ensures { IsTrue result ↔ ((running.now.place ≢ 0) ⊎ (running.now.writes.put ≡ [])) }
{
    running.place != 0 || running.writes.put().is_empty()
}
