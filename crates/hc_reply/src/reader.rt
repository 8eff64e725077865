// The transcripts of an output, read line by line.
ghost use Rattle.std.specs.Prelude.{◌≡◌, List, [], true, false, IfOk, IfErr};
ghost use Rattle.hc_transcript.specs.declared.reply.Transcript.{Transcript as Answers};
ghost use Rattle.hc_transcript.specs.Outputs.{IsTextOf};
ghost use Rattle.hc_reply.specs.declared.fault.ReplyFault.TheVariants.{NoMemory};
ghost use Rattle.hc_reply.specs.Faults.{IsReplyFault, fault_of};
ghost use Rattle.hc_reply.specs.ParserStates.{is_whole};

use crate::Transcript;
use crate::fault::ReplyFault;
use crate::mismatch::Mismatch;
use crate::output_line::read_line;
use crate::parser_state::{ParserState, allowed_of, finish, is_whole, low_of, start, step};
use sqlite_items::Items;
use std::alloc::Global;

/// The transcripts whose text the bytes are, at one pass over them. What `print` writes is read as what it was given;
/// of other bytes the fault tells where no output goes on.
pub fn read(alloc: Global, bytes: &[u8]) -> Result<Items<Transcript>, ReplyFault>
    ensures found { IfOk result (IsTextOf bytes.now) }
    ensures only { (transcripts : List Answers) → IsTextOf bytes.now transcripts
        → IfErr result (λ fault. fault ≡ NoMemory) }
    ensures fault { IfErr result (IsReplyFault bytes.now) }
{
    let mut state = start(alloc);
    let mut rest = bytes;
    while !is_end(&state, rest) {
        match read_line(alloc, allowed_of(&state), low_of(&state), rest) {
            Ok((line, left)) => {
                step(alloc, &mut state, line)?;
                rest = left;
            }
            Err(mismatch) => return Err(fault_of(bytes.len(), mismatch)),
        }
    }
    finish(state)
}

// Whether the output ends here.
fn is_end(state: &ParserState, rest: &[u8]) -> bool
    ensures end { result ≡ true → (rest.now ≡ []) × (is_whole state.now ≡ true) }
    ensures more { result ≡ false → rest.now ≡ [] → is_whole state.now ≡ true → ⊥ }
{
    rest.is_empty() && is_whole(state)
}

// The fault of so many bytes, where a line was not read.
fn fault_of(len: usize, mismatch: Mismatch<'_>) -> ReplyFault
    ensures { result ≡ fault_of len mismatch.entry }
{
    match mismatch {
        Mismatch::At(rest) => ReplyFault::Bad {
            at: len.saturating_sub(rest.len()) as u64,
        },
        Mismatch::NoMemory => ReplyFault::NoMemory,
    }
}
