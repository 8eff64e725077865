ghost use Rattle.std.specs.Prelude.{◌≡◌, ◌≤◌, ◌<◌, ℕ, List, Option, length, IfOk, OnErr};
ghost use Rattle.hc_io.specs.Faults.{HasCause};
ghost use Rattle.hc_io.specs.Transfer.{WritesIfTold};

use crate::Failed;

/// Where bytes are written, one piece after another.
pub trait Sink {
    /// The bytes that were written, where the sink tells them.
    ghost written: { Self → Option (List ℕ) };

    /// How often a write has failed, up to the greatest value of a u64. It never falls.
    ghost faults: { Self → ℕ };

    /// Writes the first bytes of `piece`, and answers how many: at most its length, and at least
    /// one where it is not empty. `Failed` writes none, where the sink tells its bytes.
    fn write(&mut self, piece: &[u8]) -> Result<usize, Failed>
        ensures within { IfOk result (λ n. n ≤ length piece.now) }
        ensures some { 0 < length piece.now → IfOk result (λ n. 0 < n) }
        ensures bytes { IfOk result (λ n. WritesIfTold (written self.old) (written self.new) piece.now n) }
        ensures failed { OnErr result (written self.new ≡ written self.old) }
        ensures cause { HasCause (faults self.old) (faults self.new) result };
}
