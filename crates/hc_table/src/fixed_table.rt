ghost use Rattle.hc_table.specs.Language.{table_language};

use hc_meaning::languages::Speech;

/// The one table's language, for contracts alone.
pub struct FixedTable;

impl Speech for FixedTable {
    ghost language = { table_language };
}
