//! Tables with rules: `k` with a UNIQUE text, and `p` with a primary key of two columns.
ghost use Rattle.hc_sql_examples.specs.Worked.{Makes};
ghost use Rattle.hc_sql_examples.specs.Keyed.{keyless, keyed, unpaired, paired};

/// The database `keyless`: `k` without rows.
pub fn makes_keyless()
    ensures { Makes keyless }
{}

/// The database `keyed`: `k` with a text and a NULL.
pub fn makes_keyed()
    ensures { Makes keyed }
{}

/// The database `unpaired`: `p` without rows.
pub fn makes_unpaired()
    ensures { Makes unpaired }
{}

/// The database `paired`: `p` with one row.
pub fn makes_paired()
    ensures { Makes paired }
{}
