// What one reply says of its command.
ghost use Rattle.std.specs.Prelude.{◌≡◌, [], Bool};
ghost use Rattle.hc_transcript.specs.declared.reply.Reply.{Reply};
ghost use Rattle.hc_transcript.specs.declared.reply.Line.TheVariants.{Error};
ghost use Rattle.hc_meaning.specs.declared.command.Command.{Command};
ghost use Rattle.hc_meaning.specs.declared.command.Command.TheVariants.{Rollback};
ghost use Rattle.hc_meaning.specs.Runs.Walk.{Done, answer_in, belongs, commits, item_of, move, move_inside, move_outside, stays_outside, told, undoes};
ghost use Rattle.hc_judge.specs.Turns.{close_as, item_as, lacks, move_as, rolled_back, told_as};

use hc_meaning::Command;
use hc_transcript::{Ending, Line, Refusal, Reply};

/// What a transaction has of a command.
#[derive(Debug, Clone, Copy, Drop)]
pub enum What {
    /// Its answer.
    Answered,
    /// The refusal of the commit in place of its answer.
    CommitRefused,
    /// Nothing: it was answered 7.
    OutOfMemory,
}

/// How a transaction was closed.
#[derive(Debug, Clone, Copy, Drop)]
pub enum Closing<'a> {
    /// By COMMIT or ROLLBACK, or as the one statement that it is.
    Finished,
    /// The commit was refused with 517 or 13.
    Refused(&'a Refusal),
    /// The commit was answered 7.
    FellShort,
    /// By the end of the script, or by a ROLLBACK that was answered 7.
    Abandoned,
}

/// What the last line of a reply is.
#[derive(Debug, Clone, Copy, Drop)]
pub enum Told<'a> {
    /// `ok`.
    Done,
    /// The refusal of a commit.
    Conflict(&'a Refusal),
    /// 7.
    Lack,
    /// Another refusal.
    Failure,
}

/// What a reply says of its command.
#[derive(Debug, Clone, Copy, Drop)]
pub enum Turn<'a> {
    /// The command is left out.
    LeavesOut,
    /// It is in no transaction.
    Outside,
    /// It belongs to the open transaction, or opens one.
    Belongs(What),
    /// It closes the open transaction, or one that it opens.
    Closes(What, Closing<'a>, Ending),
    /// The reply is not of the form.
    Misses,
}

// What the last line says, where a commit's refusal and 7 have no rows.
fn make_told(reply: &Reply) -> Told<'_>
    ensures { told_as result ≡ told reply.now.rows reply.now.last }
{
    match &reply.last {
        Line::Ok(_) => Told::Done,
        Line::Error(refusal) => {
            if reply.rows.is_empty() {
                told_alone(refusal)
            } else {
                Told::Failure
            }
        }
    }
}

fn told_alone(refusal: &Refusal) -> Told<'_>
    ensures { told_as result ≡ told [] (Error refusal.now) }
{
    match refusal {
        Refusal::Busy { .. } | Refusal::Full(_) => Told::Conflict(refusal),
        Refusal::NoMemory => Told::Lack,
        _ => Told::Failure,
    }
}

// What a transaction has of a command that is not asked to commit.
fn item(told: Told<'_>) -> What
    ensures { (c : Command) (reply : Reply) → item_as result c reply ≡ item_of c (answer_in reply) (told_as told.entry) }
{
    match told {
        Told::Lack => What::OutOfMemory,
        Told::Done | Told::Conflict(_) | Told::Failure => What::Answered,
    }
}

// It closes a transaction that is rolled back.
fn rolls_back<'a>(what: What, closing: Closing<'a>, ending: Option<Ending>) -> Turn<'a>
    ensures { (c : Command) (reply : Reply) → move_as result c reply ≡ rolled_back (item_as what c reply) (close_as closing.entry) ending }
{
    match ending {
        Some(Ending::RolledBack(s)) => Turn::Closes(what, closing, Ending::RolledBack(s)),
        Some(Ending::Commit(_)) | Some(Ending::Snapshot(_)) | None => Turn::Misses,
    }
}

// It belongs to the open transaction. The script's last command closes it.
fn stays_in<'a>(last: bool, what: What, ending: Option<Ending>) -> Turn<'a>
    ensures { (c : Command) (reply : Reply) → move_as result c reply ≡ belongs last (item_as what c reply) ending }
{
    if last {
        return rolls_back(what, Closing::Abandoned, ending);
    }
    match ending {
        None => Turn::Belongs(what),
        Some(_) => Turn::Misses,
    }
}

// It asked to commit, and was carried out.
fn carries_out<'a>(ending: Option<Ending>) -> Turn<'a>
    ensures { (fails : Bool) (c : Command) (reply : Reply) → move_as result c reply ≡ commits fails c (answer_in reply) Done ending }
{
    match ending {
        Some(Ending::Commit(k)) => Turn::Closes(
            What::Answered,
            Closing::Finished,
            Ending::Commit(k),
        ),
        Some(Ending::Snapshot(s)) => {
            Turn::Closes(What::Answered, Closing::Finished, Ending::Snapshot(s))
        }
        Some(Ending::RolledBack(_)) | None => Turn::Misses,
    }
}

// It asked to commit. `fails` says that it can be refused for itself, which COMMIT cannot.
fn asks<'a>(fails: bool, told: Told<'a>, ending: Option<Ending>) -> Turn<'a>
    ensures { (c : Command) (reply : Reply) → move_as result c reply ≡ commits fails c (answer_in reply) (told_as told.entry) ending }
{
    match told {
        Told::Done => carries_out(ending),
        Told::Conflict(refusal) => {
            rolls_back(What::CommitRefused, Closing::Refused(refusal), ending)
        }
        Told::Lack => rolls_back(What::OutOfMemory, Closing::FellShort, ending),
        Told::Failure => {
            if fails {
                rolls_back(What::Answered, Closing::Finished, ending)
            } else {
                Turn::Misses
            }
        }
    }
}

// It undoes the transaction.
fn undo<'a>(told: Told<'a>, ending: Option<Ending>) -> Turn<'a>
    ensures { (reply : Reply) → move_as result Rollback reply ≡ undoes (answer_in reply) (told_as told.entry) ending }
{
    match told {
        Told::Lack => rolls_back(What::OutOfMemory, Closing::Abandoned, ending),
        Told::Done | Told::Conflict(_) | Told::Failure => {
            rolls_back(What::Answered, Closing::Finished, ending)
        }
    }
}

// It is in no transaction, and so has no ending.
fn stays_out<'a>(ending: Option<Ending>) -> Turn<'a>
    ensures { (c : Command) (reply : Reply) → move_as result c reply ≡ stays_outside (answer_in reply) ending }
{
    match ending {
        None => Turn::Outside,
        Some(_) => Turn::Misses,
    }
}

// A 7 without an ending.
fn is_left_out(told: Told<'_>, ending: Option<Ending>) -> bool
    ensures { result ≡ lacks (told_as told.entry) ending }
{
    match told {
        Told::Lack => ending.is_none(),
        Told::Done | Told::Conflict(_) | Told::Failure => false,
    }
}

// Where no transaction is open.
fn turn_outside<'a>(
    last: bool,
    command: &Command,
    told: Told<'a>,
    ending: Option<Ending>,
) -> Turn<'a>
    ensures { (reply : Reply) → move_as result command.now reply ≡ move_outside last command.now (answer_in reply) (told_as told.entry) ending }
{
    if is_left_out(told, ending) {
        return Turn::LeavesOut;
    }
    match command {
        Command::Run(_) => asks(true, told, ending),
        Command::Begin => stays_in(last, item(told), ending),
        _ => stays_out(ending),
    }
}

// Where one is.
fn turn_inside<'a>(
    last: bool,
    command: &Command,
    told: Told<'a>,
    ending: Option<Ending>,
) -> Turn<'a>
    ensures { (reply : Reply) → move_as result command.now reply ≡ move_inside last command.now (answer_in reply) (told_as told.entry) ending }
{
    if is_left_out(told, ending) {
        return stays_in(last, What::OutOfMemory, ending);
    }
    match command {
        Command::Commit => asks(false, told, ending),
        Command::Rollback => undo(told, ending),
        _ => stays_in(last, item(told), ending),
    }
}

/// What a reply says of its command, where a transaction is open or none is. `last` says that the command is
/// the script's last.
pub fn make_turn<'a>(opened: bool, last: bool, command: &Command, reply: &'a Reply) -> Turn<'a>
    ensures { move_as result command.now reply.now ≡ move opened last command.now reply.now }
{
    if opened {
        turn_inside(last, command, make_told(reply), reply.ending)
    } else {
        turn_outside(last, command, make_told(reply), reply.ending)
    }
}
