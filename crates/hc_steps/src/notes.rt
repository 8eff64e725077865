//! What one seat tells another.
ghost use Rattle.std.specs.Prelude.{◌≡◌, ◌≤◌};
ghost use Rattle.hc_rule.specs.Views.{bare};
ghost use Rattle.hc_rule.specs.Kinds.Note.{note_of, informed};
ghost use Rattle.hc_steps.specs.Same.{IsSame};
ghost use Rattle.hc_steps.specs.Seated.{IsSeated};

use crate::grip::{Grip, Token, Words};
use crate::log_words::greater;
use atomic_table::{Join, Seat, Split};
use hc_base::Cid;
use hc_rows::Layout;
use hc_rule::View;

/// How much of the log a seat has seen, and the accounts of its own connection and of those that it was told of, to be told to
/// another seat of the same table.
#[derive(Drop)]
pub struct Note {
    /// How many places of the log that seat has seen taken.
    pub seen: Cid,
    pub seat: Seat<(), View>,
    ghost counted: { seen ≡ seat.me.0.seen },
    ghost bare_seat: { seat.me ≡ bare seat.me.0 },
    ghost note: { seat.me.0 ≡ note_of seat.me.0 },
}

// How a note is given and taken in.
struct Notes;

impl Split<View> for Notes {
    ghost use Rattle.hc_rule.specs.Kinds.Note.{note_of};

    ghost left = { λ v. v };

    ghost right = { note_of };
}

impl Join<View> for Notes {
    ghost use Rattle.hc_rule.specs.Views.{nobody};
    ghost use Rattle.hc_rule.specs.Kinds.Note.{informed};

    ghost both = { informed };

    ghost spent = { nobody };
}

fn tell_as(table: &Words, layout: &Layout, seat: &mut Token) -> Token
    requires seated { IsSeated table.now.table_id table.now.key layout.now seat.old.table_id seat.old.me }
    ensures table { (seat.new.table_id ≡ seat.old.table_id) × (result.table_id ≡ seat.old.table_id) }
    ensures seat { seat.new.me ≡ seat.old.me }
    ensures note { result.me ≡ bare (note_of seat.old.me.0) }
{
    table.split_seat::<Notes>(seat)
}

fn learn_as(table: &Words, layout: &Layout, seat: &mut Token, note: Token)
    requires seated { IsSeated table.now.table_id table.now.key layout.now seat.old.table_id seat.old.me }
    requires note { (note.table_id ≡ table.now.table_id) × (note.me ≡ bare note.me.0) × (note.me.0 ≡ note_of note.me.0) }
    ensures table { seat.new.table_id ≡ seat.old.table_id }
    ensures told { seat.new.me ≡ bare (informed seat.old.me.0 note.me.0) }
{
    table.join_seat::<Notes>(seat, note)
}

impl<'a> Grip<'a> {
    /// A note of how much of the log the seat has seen and of the accounts that it can tell of, for another seat of the same
    /// table.
    pub fn tell(&mut self) -> Note
        ensures note { result.seat.me.0 ≡ note_of self.old.seat.me.0 }
        ensures table { result.seat.table_id ≡ self.old.seat.table_id }
        ensures seen { result.seen.0 ≤ self.old.layout.transactions }
        ensures seat { self.new.seat.me ≡ self.old.seat.me }
        ensures same { IsSame self.old self.new }
    {
        let seat = tell_as(self.table, &self.layout, &mut self.seat);
        Note {
            seen: self.seen,
            seat,
        }
    }

    /// Takes in the note of another seat of the table.
    pub fn learn(&mut self, note: Note)
        requires table { note.seat.table_id ≡ self.old.seat.table_id }
        requires seen { note.seen.0 ≤ self.old.layout.transactions }
        ensures told { self.new.seat.me ≡ bare (informed self.old.seat.me.0 note.seat.me.0) }
        ensures same { IsSame self.old self.new }
    {
        let seen = note.seen;
        learn_as(self.table, &self.layout, &mut self.seat, note.seat);
        self.seen = greater(self.seen, seen);
    }
}
