// What follows from the rule and the clauses alone. Each law is the contract of a function that does nothing. The rule holds
// between any two steps of any seats, so what a law says of it holds at any later step too.
ghost use Rattle.hc_tidlog.specs.Laws.{AccountsAreOneMachine, NotesAreTrue, NotesChangeNoAccount, NotesStay, WhatIsToldIsShown};

/// What a seat has noted of a transaction is true of it: it is committed at that number, it is rolled back, or, if it is ever
/// committed, then above the bound.
pub fn what_was_noted_is_true()
    ensures { NotesAreTrue }
{}

/// No step of a seat drops what it has noted. So what was shown to it once may be used at any later step.
pub fn no_step_drops_a_note()
    ensures { NotesStay }
{}

/// What `state_of` tells is shown by the notes of the seat's view after any steps.
pub fn what_was_told_is_shown()
    ensures { WhatIsToldIsShown }
{}

/// The accounts of all connections, each known to its own seat, with the log up to its first empty word are one sound machine.
pub fn accounts_are_one_sound_machine()
    ensures { AccountsAreOneMachine }
{}

/// A note that one seat takes in from another changes no account.
pub fn a_note_changes_no_account()
    ensures { NotesChangeNoAccount }
{}
