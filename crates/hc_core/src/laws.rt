// What follows from the table of the machine alone. Each law is the contract of a function that does nothing.
// The lemmas in proofs/Kept say the same event by event, of any log and any transactions by connection, and take
// the facts of an event in place of this machine's answer: they are what another machine can cite.
ghost use Rattle.hc_core.specs.Laws.{AfterEveryRun, AnEventHasAnAnswer, AnswersAreOne, EachEventKeepsSoundness, EachListOfEventsHasOneRun, FirstCommitterWins, NewIsSound, ReadsAreSnapshots, RefusalsNameWriters, VersionsBeginWithTheLatest};
ghost use Rattle.hc_core.specs.ListDesk.{LeavesOthers};
ghost use Rattle.hc_core.specs.Sound.{IsSound};

/// A new machine is sound, for any number of connections.
pub fn a_new_machine_is_sound()
    ensures { NewIsSound }
{}

/// Whatever event comes to a sound machine, and is answered by the table, the machine after it is sound.
pub fn each_event_keeps_soundness()
    ensures { EachEventKeepsSoundness }
{}

/// The table leaves no choice: a sound machine has one answer at most to an event.
pub fn an_event_has_one_answer()
    ensures { AnswersAreOne }
{}

/// Nor does it leave an event without one: whatever comes to a sound machine, the table has an answer to it.
pub fn an_event_has_an_answer()
    ensures { AnEventHasAnAnswer }
{}

/// So each list of events, of any connections in any order, has one run from a new machine: what is said of every
/// run is said of every list of events.
pub fn each_list_of_events_has_one_run()
    ensures { EachListOfEventsHasOneRun }
{}

/// Whatever the events are, of whichever connections and in whatever order they come, the machine after
/// them is sound. So each part that was read has the cells of its snapshot; what a committed transaction
/// read or put, no other commit put between its snapshot and its commit number; and a refusal names a
/// transaction of another connection that put the key.
pub fn every_run_is_sound()
    ensures sound { AfterEveryRun IsSound }
    ensures reads { AfterEveryRun ReadsAreSnapshots }
    ensures first { AfterEveryRun FirstCommitterWins }
    ensures refusals { AfterEveryRun RefusalsNameWriters }
{}

/// The versions of a key are the transactions that have it in their write sets, the newest first; the machine's
/// table asks for the latest of them alone.
pub fn the_versions_of_a_key_begin_with_the_latest()
    ensures { VersionsBeginWithTheLatest }
{}

/// Steps of one connection leave the accounts of the others. So desks of several connections take turns at one machine,
/// and each finds its account as it left it.
pub fn a_connection_leaves_the_others()
    ensures { LeavesOthers }
{}
