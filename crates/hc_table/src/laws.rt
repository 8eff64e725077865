// What holds of the one table as a language, and what right runs of any language give of it.
ghost use Rattle.hc_meaning.specs.Runs.Laws.{AgreementCarries, SoundAndFittingIsRight, WritesAreRead};
ghost use Rattle.hc_meaning.specs.Runs.Growing.{FitsAtStart, FitsGrows};
ghost use Rattle.hc_meaning.specs.Runs.Examples.{OneStatementIsJudged};
ghost use Rattle.hc_table.specs.Examples.{StatementsDoSo};
ghost use Rattle.hc_table.specs.Forms.{EachFormIsTaken};
ghost use Rattle.hc_table.specs.Language.{table_language};
ghost use Rattle.hc_table.specs.Laws.{TheTableIsALanguage};

use crate::FixedTable;
use hc_key::laws::{byte_order_is_value_order, keys_of_different_lists_differ};
use hc_meaning::languages::{
    agreement_carries, fits_at_start, fits_grows, one_statement_is_judged,
    sound_and_fitting_is_right, writes_are_read,
};
use hc_record::laws::no_encoding_begins_another;

/// The table has what right runs ask of a language.
pub fn the_table_is_a_language()
    ensures { TheTableIsALanguage }
{
    byte_order_is_value_order();
    keys_of_different_lists_differ();
    no_encoding_begins_another();
}

/// A tree of each form with two numbers is taken for that form with them.
pub fn each_form_is_taken()
    ensures { EachFormIsTaken }
{}

/// Six statements on two rows do what was worked out by hand.
pub fn statements_do_so()
    ensures { StatementsDoSo }
{}

/// What right runs of any language give of the table.
pub fn the_laws_hold_of_the_table()
    ensures right { SoundAndFittingIsRight table_language }
    ensures agreement { AgreementCarries table_language }
    ensures reads { WritesAreRead table_language }
    ensures start { FitsAtStart table_language }
    ensures grows { FitsGrows table_language }
    ensures judged { OneStatementIsJudged table_language }
{
    sound_and_fitting_is_right::<FixedTable>();
    agreement_carries::<FixedTable>();
    writes_are_read::<FixedTable>();
    fits_at_start::<FixedTable>();
    fits_grows::<FixedTable>();
    one_statement_is_judged::<FixedTable>();
}
