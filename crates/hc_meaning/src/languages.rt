// What follows from the definitions of right runs, at any language. Each law is the contract of a function that does
// nothing. A law over all languages is no clause, since a language has types in it, so the function takes the language
// from a type.
ghost use Rattle.hc_meaning.specs.Runs.Examples.{OneStatementIsJudged};
ghost use Rattle.hc_meaning.specs.Runs.Growing.{FitsAtStart, FitsGrows};
ghost use Rattle.hc_meaning.specs.Runs.Language.{Language};
ghost use Rattle.hc_meaning.specs.Runs.Laws.{AgreementCarries, SoundAndFittingIsRight, WritesAreRead};

/// What statements mean, for contracts alone: which databases there are, and what a statement answers, leaves and
/// reads.
pub trait Speech {
    /// The language.
    ghost language: { Language };
}

/// A transaction runs alike on two databases that agree on what it reads on one of them.
pub fn agreement_carries<T: Speech>()
    ensures { AgreementCarries T.language }
{}

/// A transaction reads each key that it writes.
pub fn writes_are_read<T: Speech>()
    ensures { WritesAreRead T.language }
{}

/// Before its first reply a connection fits its account.
pub fn fits_at_start<T: Speech>()
    ensures { FitsAtStart T.language }
{}

/// How a connection fits its account with one more reply.
pub fn fits_grows<T: Speech>()
    ensures { FitsGrows T.language }
{}

/// Where the log and the accounts are sound and each transcript fits its account, the transcripts are a
/// right run.
pub fn sound_and_fitting_is_right<T: Speech>()
    ensures { SoundAndFittingIsRight T.language }
{}

/// Of one statement that is carried out, the ending tells whether it writes something.
pub fn one_statement_is_judged<T: Speech>()
    ensures { OneStatementIsJudged T.language }
{}
