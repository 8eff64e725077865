// The input, read whole before anything else is done.
ghost use Rattle.std.specs.Prelude.{◌≡◌, ◌≤◌, ◌<◌, length, vec_len, IfOk, IsErrOf};
ghost use Rattle.hc_top.specs.TopCall.{ReadsToEnd};
ghost use Rattle.hc_io.specs.Faults.{Rose};
ghost use Rattle.hc_top.specs.Streams.{Appended, ReadsAllOrMostIfTold};
ghost use Rattle.hc_top.specs.declared.reading.ReadError.TheVariants.{NoMemory};

use hc_io::Source;
use hc_meaning::MAX_INPUT;
use std::alloc::{AllocError, Global};

/// The most bytes that are read: one more than an input may have, so that a longer one is told apart.
pub const MOST_READ: usize = MAX_INPUT + 1;

const BUFFER_LEN: usize = 65_536;

/// Why an input was not read whole.
#[derive(Clone, Copy, Debug, PartialEq, Eq)]
pub enum ReadError {
    /// The source failed.
    Fault,
    /// An allocation was refused.
    NoMemory,
}

impl From<AllocError> for ReadError {
    ghost from_gives = { λ _ e. e ≡ NoMemory };

    fn from(_error: AllocError) -> ReadError {
        ReadError::NoMemory
    }
}

/// Reads all that the source has left, up to `MOST_READ` bytes.
pub fn read_input<S: Source>(alloc: Global, source: &mut S) -> Result<Vec<u8>, ReadError>
    ensures read { IfOk result (λ input.
        ReadsAllOrMostIfTold (S.left source.old) (S.left source.new) input.items) }
    ensures count { S.faults source.old ≤ S.faults source.new }
    ensures fault { IsErrOf result ReadError.Fault
        → Rose (S.faults source.old) (S.faults source.new) }
{
    let mut input = Vec::new(alloc);
    let mut buffer = new_buffer(alloc, BUFFER_LEN)?;
    while input.len() < MOST_READ {
        let room = BUFFER_LEN.min(MOST_READ - input.len());
        if read_piece(source, &mut buffer[..room], &mut input)? == 0 {
            return Ok(input);
        }
    }
    Ok(input)
}

fn new_buffer(alloc: Global, len: usize) -> Result<Vec<u8>, AllocError>
    ensures { IfOk result (λ buffer. vec_len buffer ≡ len) }
{
    vec![in alloc; 0; len]
}

// Reads once into the buffer, and appends what came to the input.
fn read_piece<S: Source>(
    source: &mut S,
    buffer: &mut [u8],
    input: &mut Vec<u8>,
) -> Result<usize, ReadError>
    requires { 0 < length buffer.old }
    ensures within { IfOk result (λ n. n ≤ length buffer.old) }
    ensures appended { IfOk result (λ n.
        Appended (S.left source.old) (S.left source.new) input.old.items input.new.items n) }
    ensures end { IfOk result (λ n. n ≡ 0 → ReadsToEnd (S.left source.old) (S.left source.new)) }
    ensures count { S.faults source.old ≤ S.faults source.new }
    ensures fault { IsErrOf result ReadError.Fault
        → Rose (S.faults source.old) (S.faults source.new) }
{
    let Ok(n) = source.read(buffer) else {
        return Err(ReadError::Fault);
    };
    input.extend_from_slice(&buffer[..n])?;
    Ok(n)
}
