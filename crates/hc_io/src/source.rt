ghost use Rattle.std.specs.Prelude.{◌≡◌, ◌≤◌, ℕ, List, Option, length, IfOk, OnErr};
ghost use Rattle.hc_io.specs.Faults.{HasCause};
ghost use Rattle.hc_io.specs.Transfer.{ReadsIfTold};

use thiserror::Error;

/// A read or a write failed, for a cause outside the program.
#[derive(Clone, Copy, Debug, PartialEq, Eq, Error)]
#[error("the stream could not be read or written")]
pub struct Failed;

/// Bytes to read, once, from the front.
pub trait Source {
    /// The bytes that are left, where the source tells them.
    ghost left: { Self → Option (List ℕ) };

    /// How often a read has failed, up to the greatest value of a u64. It never falls.
    ghost faults: { Self → ℕ };

    /// Reads into the front of `buffer`, and answers how many bytes: 0 at the end of the input
    /// or where the buffer is empty, and at most the buffer's length. What follows them in
    /// the buffer is left open. `Failed` takes no byte, where the source tells its bytes.
    fn read(&mut self, buffer: &mut [u8]) -> Result<usize, Failed>
        ensures within { IfOk result (λ n. n ≤ length buffer.new) }
        ensures bytes { IfOk result (λ n. ReadsIfTold (left self.old) (left self.new) buffer.new n) }
        ensures failed { OnErr result (left self.new ≡ left self.old) }
        ensures cause { HasCause (faults self.old) (faults self.new) result };
}
