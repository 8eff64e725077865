// The top call: all that the program does.
ghost use Rattle.std.specs.Prelude.{◌≡◌, ◌↔◌, ◌⊎◌, ◌≤◌, ℕ, IfOk, IfErr, IfSome, OnOk};
ghost use Rattle.hc_io.specs.Faults.{Rose};
ghost use Rattle.hc_top.specs.declared.status.InputKind.{InputKind};
ghost use Rattle.hc_meaning.specs.Input.{BreaksForm, IsOfForm};
ghost use Rattle.hc_top.specs.Causes.{IsCauseOfNone, IsInputFault, OnNothingWritten, OnWriting, RefusesInput};
ghost use Rattle.hc_top.specs.TopCall.{IsRightOutputIfTold, ReadsToEnd, WritesFrontOfRightOutput, WritesRightOutput};
ghost use Rattle.hc_top.specs.Words.{AreStepWords};

use crate::execution::run_script;
use crate::reading::read_input;
use crate::script::read_script;
use crate::status::Status;
use crate::words::are_step_words;
use crate::writing::write_output;
use hc_io::{Sink, Source};
use hc_range::Bytes;
use hc_value::Str;
use std::alloc::Global;

/// Reads the input to its end or past its greatest length, runs its statements one after another, and
/// then writes the output. `words` are the command-line arguments, without the program's name.
pub fn top_step<S: Source, K: Sink>(
    alloc: Global,
    words: &[Str],
    source: &mut S,
    sink: &mut K,
) -> Status
    // What was written is a right output for the input, which was read to its end before.
    ensures right { result ≡ Status.Done
        → WritesRightOutput (S.left source.old) (K.written sink.old) (K.written sink.new) }
    ensures read_to_end { OnWriting result (ReadsToEnd (S.left source.old) (S.left source.new)) }

    // When each other status comes; `NoMemory` is free, but for words that are not of the form.
    ensures words { (result ≡ Status.Words) ↔ (AreStepWords words.now → ⊥) }
    ensures read_fault { result ≡ Status.ReadFault → Rose (S.faults source.old) (S.faults source.new) }
    ensures input { (at : ℕ) (kind : InputKind) → result ≡ Status.Input at kind
        → AreStepWords words.now × IsInputFault (S.left source.old) at kind }
    ensures broken_form { IfSome (S.left source.old) (λ input.
        BreaksForm input → AreStepWords words.now → RefusesInput result) }
    ensures write_fault { result ≡ Status.WriteFault → Rose (K.faults sink.old) (K.faults sink.new) }
    ensures good_form { IfSome (S.left source.old) (λ input.
        IsOfForm input → AreStepWords words.now → (Rose (S.faults source.old) (S.faults source.new) → ⊥)
        → (Rose (K.faults sink.old) (K.faults sink.new) → ⊥)
        → (result ≡ Status.Done) ⊎ (result ≡ Status.NoMemory)) }

    // What is read and written after them.
    ensures unread { result ≡ Status.Words → source.new ≡ source.old }
    ensures nothing { OnNothingWritten result (sink.new ≡ sink.old) }
    ensures front { result ≡ Status.WriteFault
        → WritesFrontOfRightOutput (S.left source.old) (K.written sink.old) (K.written sink.new) }
    ensures counts { (S.faults source.old ≤ S.faults source.new) × (K.faults sink.old ≤ K.faults sink.new) }
{
    if !are_step_words(words) {
        return Status::Words;
    }
    let output = match make_output(alloc, source) {
        Ok(output) => output,
        Err(status) => return status,
    };
    match write_output(sink, output.as_slice()) {
        Ok(()) => Status::Done,
        Err(_) => Status::WriteFault,
    }
}

// Reads the input, and makes its output.
fn make_output<S: Source>(alloc: Global, source: &mut S) -> Result<Bytes, Status>
    ensures right { IfOk result (IsRightOutputIfTold (S.left source.old)) }
    ensures read_to_end { OnOk result (ReadsToEnd (S.left source.old) (S.left source.new)) }
    ensures cause { IfErr result (IsCauseOfNone (S.left source.old) (S.faults source.old) (S.faults source.new)) }
    ensures count { S.faults source.old ≤ S.faults source.new }
{
    let input = read_input(alloc, source)?;
    let statements = read_script(alloc, &input)?;
    Ok(run_script(alloc, &statements)?)
}
