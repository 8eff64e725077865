// The transactions of scripts with their transcripts, which differ by name.
ghost use Rattle.std.specs.Prelude.{IfOk};
ghost use Rattle.hc_judge.specs.Fronts.{IsFound};
ghost use Rattle.hc_verdict.specs.Laws.{DifferWhereFound};

use hc_judge::{Front, Script};
use hc_transcript::Transcript;
use hc_value::NoMemory;
use std::alloc::Global;

/// Finds the transactions as `hc_judge` does. They differ by name, which the history asks for.
///
/// # Errors
///
/// `NoMemory` where an allocation is refused.
pub fn find_named<'a>(
    alloc: Global,
    scripts: &'a [Script],
    transcripts: &'a [Transcript],
) -> Result<Front<'a>, NoMemory>
    ensures found { IfOk result (λ found. IsFound scripts.now transcripts.now found) }
    ensures named { IfOk result (λ found. DifferWhereFound found) }
{
    hc_judge::find_transactions(alloc, scripts, transcripts)
}
