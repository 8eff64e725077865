// The laws of the judge, each at one language.
ghost use Rattle.hc_judge.specs.Laws.{EachChainEndsAtACommit, NoTwoNameEachOther, RightRunHasTransactions};
ghost use Rattle.hc_table.specs.Language.{table_language};

use hc_judge::laws::{
    a_right_run_has_transactions, each_chain_ends_at_a_commit, no_two_name_each_other,
};
use hc_table::FixedTable;

fn the_laws_hold_of_the_table()
    ensures has { RightRunHasTransactions table_language }
    ensures chains { EachChainEndsAtACommit table_language }
    ensures circles { NoTwoNameEachOther table_language }
{
    a_right_run_has_transactions::<FixedTable>();
    each_chain_ends_at_a_commit::<FixedTable>();
    no_two_name_each_other::<FixedTable>();
}

#[test]
fn the_one_table_has_the_laws() {
    the_laws_hold_of_the_table();
}
