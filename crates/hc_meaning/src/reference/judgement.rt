// Whether transcripts are a right run of scripts.
ghost use Rattle.std.specs.Prelude.{◌↔◌, ◌^◌, ◌<◌, All, IfOk, IsTrue, length, map};
ghost use Rattle.std.specs.List.Sorted.{IsStrictlyIncreasing};
ghost use Rattle.hc_meaning.specs.History.{IsLegal};
ghost use Rattle.hc_meaning.specs.RightOutput.{IsInOrder, IsRightRun, OthersAreRead};

use crate::Script;
use crate::reference::answers::{is_legal, others_are_read};
use crate::reference::commits::history;
use crate::reference::cutting::cut_all;
use crate::reference::order::is_in_order;
use crate::reference::shown::Shown;
use hc_transcript::Transcript;
use hc_value::NoMemory;
use std::alloc::Global;

/// Whether these transcripts are a right run of the scripts, for any number of connections: by the
/// parts of the definition, one after another.
pub fn is_right_run(
    alloc: Global,
    scripts: &[Script],
    transcripts: &[Transcript],
) -> Result<bool, NoMemory>
    requires { All (λ script. length script.statements < 2 ^ 32) scripts.now }
    ensures { IfOk result (λ right. IsTrue right ↔ IsRightRun scripts.now transcripts.now) }
{
    if !ascend(scripts) {
        return Ok(false);
    }
    let Some(found) = cut_all(alloc, scripts, transcripts)? else {
        return Ok(false);
    };
    let transactions = found.as_slice();
    let Some(committed) = history(alloc, transactions)? else {
        return Ok(false);
    };
    is_right_history(alloc, transactions, committed.as_slice())
}

// Whether transactions with this history are legal, read as they print, and in order.
fn is_right_history(
    alloc: Global,
    transactions: &[Shown<'_>],
    history: &[Shown<'_>],
) -> Result<bool, NoMemory>
    ensures { IfOk result (λ right. IsTrue right ↔ (IsLegal history.now
        × OthersAreRead transactions.now history.now × IsInOrder transactions.now history.now)) }
{
    if !is_legal(alloc, history)? {
        return Ok(false);
    }
    if !others_are_read(alloc, transactions, history)? {
        return Ok(false);
    }
    Ok(is_in_order(transactions, history))
}

/// Whether the scripts are of different connections, by number.
pub fn ascend(scripts: &[Script]) -> bool
    ensures { IsTrue result ↔ IsStrictlyIncreasing (map (λ script. script.conn) scripts.now) }
{
    for i in 1..scripts.len() {
        if scripts[i - 1].conn >= scripts[i].conn {
            return false;
        }
    }
    true
}
