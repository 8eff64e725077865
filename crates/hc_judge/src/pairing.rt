// The connections with a command, each with its transcript.
ghost use Rattle.std.specs.Prelude.{◌≡◌, ◌↔◌, IfOk, IsTrue, List, MatchOption};
ghost use Rattle.std.specs.List.{AllByRecursion};
ghost use Rattle.hc_meaning.specs.Runs.Cut.{Transaction};
ghost use Rattle.hc_judge.specs.Pairs.{AreCutInto, ArePaired, IsOne, Paired};

use crate::cutting::cut;
use crate::shown::{Script, Shown};
use hc_transcript::Transcript;
use hc_value::NoMemory;
use sqlite_items::at;
use std::alloc::Global;
use std::marker::Model;

/// A script and its transcript.
#[derive(Drop)]
pub struct Pair<'a> {
    script: &'a Script,
    transcript: &'a Transcript,
}

impl<'a> Model for Pair<'a> {
    ghost use Rattle.hc_ast.specs.contracts.expression.Expr as expr;
    ghost use Rattle.std.specs.Coded.{codes};
    ghost use Rattle.hc_judge.specs.Pairs.{Paired};

    ghost Value = { Paired };

    ghost coded = { Prim.hlevel (codes, expr.the_row.coded) };

    ghost view = { λ p. record { script = p.script.now; transcript = p.transcript.now } };
}

impl<'a> Pair<'a> {
    /// A script and its transcript.
    pub fn new(script: &'a Script, transcript: &'a Transcript) -> Pair<'a>
        ensures { result ≡ record { script = script.now; transcript = transcript.now } }
    {
        Pair { script, transcript }
    }

    /// The script.
    pub fn script(&self) -> &'a Script
        ensures { result.now ≡ self.now.script }
    {
        self.script
    }

    /// The transcript.
    pub fn transcript(&self) -> &'a Transcript
        ensures { result.now ≡ self.now.transcript }
    {
        self.transcript
    }
}

// Whether a transcript is of the script's connection, with a reply for each command.
fn is_one(script: &Script, transcript: &Transcript) -> bool
    ensures { IsTrue result ↔ IsOne (record { script = script.now; transcript = transcript.now }) }
{
    transcript.conn == script.conn() && script.commands().len() == transcript.replies.len()
}

/// The scripts with a command, each with its transcript, or `None` where the transcripts are not theirs: each
/// such script has one, in the order of the scripts, of its connection and with a reply for each command, and
/// there is no other.
pub fn pairs<'a>(
    alloc: Global,
    scripts: &'a [Script],
    transcripts: &'a [Transcript],
) -> Result<Option<Vec<Pair<'a>>>, NoMemory>
    ensures { IfOk result (λ found. MatchOption found
        ((ps : List Paired) → ArePaired scripts.now transcripts.now ps → ⊥)
        (λ ps. ArePaired scripts.now transcripts.now ps.items)) }
{
    let mut pairs = Vec::new(alloc);
    for script in scripts {
        if script.commands().is_empty() {
            continue;
        }
        let Some(transcript) = at(transcripts, pairs.len()) else {
            return Ok(None);
        };
        if !is_one(script, transcript) {
            return Ok(None);
        }
        pairs.push(Pair::new(script, transcript))?;
    }
    if pairs.len() < transcripts.len() {
        return Ok(None);
    }
    Ok(Some(pairs))
}

/// The transactions of all connections, by connection, or `None` where some transcript is not cut into any.
pub fn cut_all<'a>(alloc: Global, pairs: &[Pair<'a>]) -> Result<Option<Vec<Shown<'a>>>, NoMemory>
    requires { AllByRecursion IsOne pairs.now }
    ensures { IfOk result (λ found. MatchOption found
        ((ts : List Transaction) → AreCutInto pairs.now ts → ⊥)
        (λ ts. AreCutInto pairs.now ts.items)) }
{
    let mut transactions = Vec::new(alloc);
    for pair in pairs {
        let Some(mut own) = cut(alloc, pair.script(), pair.transcript())? else {
            return Ok(None);
        };
        transactions.append(&mut own)?;
    }
    Ok(Some(transactions))
}
