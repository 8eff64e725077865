// The first two parts of a right run: form and cut.
ghost use Rattle.std.specs.Prelude.{◌≡◌, ◌↔◌, IfOk, IsTrue, map};
ghost use Rattle.std.specs.List.Sorted.{IsStrictlyIncreasing};
ghost use Rattle.hc_judge.specs.Fronts.{IsFound};

use crate::pairing::{cut_all, pairs};
use crate::shown::{Script, Shown};
use hc_transcript::Transcript;
use hc_value::NoMemory;
use std::alloc::Global;

/// What is found of scripts and transcripts.
#[derive(Drop)]
pub enum Front<'a> {
    /// The transactions of all connections, by connection, and in order within each.
    Transactions(Vec<Shown<'a>>),
    /// The scripts are not of different connections by number, or the transcripts are not theirs: one for
    /// each script with a command, with a reply for each command.
    NotPaired,
    /// Some transcript is not cut into transactions: an ending is missing, is where none may be, or is of
    /// another form, or a command in no transaction is answered in another way than it has to be.
    NotCut,
}

/// Finds the transactions of scripts with their transcripts, or which of the first two parts of a right run
/// fails first.
///
/// # Errors
///
/// `NoMemory` where an allocation is refused.
pub fn find_transactions<'a>(
    alloc: Global,
    scripts: &'a [Script],
    transcripts: &'a [Transcript],
) -> Result<Front<'a>, NoMemory>
    ensures { IfOk result (λ found. IsFound scripts.now transcripts.now found) }
{
    if !ascend(scripts) {
        return Ok(Front::NotPaired);
    }
    let Some(paired) = pairs(alloc, scripts, transcripts)? else {
        return Ok(Front::NotPaired);
    };
    let Some(transactions) = cut_all(alloc, paired.as_slice())? else {
        return Ok(Front::NotCut);
    };
    Ok(Front::Transactions(transactions))
}

// Whether the scripts are of different connections, by number.
fn ascend(scripts: &[Script]) -> bool
    ensures { IsTrue result ↔ IsStrictlyIncreasing (map (λ script. script.conn) scripts.now) }
{
    for i in 1..scripts.len() {
        if scripts[i - 1].conn() >= scripts[i].conn() {
            return false;
        }
    }
    true
}
