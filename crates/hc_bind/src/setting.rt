// What the results of a query are read on.
ghost use Rattle.std.specs.Prelude.{◌≡◌, Ok, false};
ghost use Rattle.hc_schema.specs.Binding.Scopes.{column};
ghost use Rattle.hc_schema.specs.Binding.Expressions.{name_reading};
ghost use Rattle.hc_schema.specs.Binding.Queries.{is_grouped, setting_of, result_of, read_in};
ghost use Rattle.hc_bind.specs.Answers.{Tells};
ghost use Rattle.hc_bind.specs.Scopes.{slot_of, seen};
ghost use Rattle.hc_bind.specs.Settings.{read_on};

use crate::BindFault;
use crate::row::on_rows;
use crate::scope::{Scope, Slot};
use hc_ast::{Bound, Expr, Select};
use hc_schema::Typed;
use std::alloc::Global;

/// What the results of a query are read on: rows.
#[derive(Drop)]
pub struct Setting<'a> {
    pub scope: Scope<'a>,
}

/// What the results of a query without groups are read on.
pub fn setting_of<'a>(scope: Scope<'a>, q: &Select) -> Setting<'a>
    requires { is_grouped q.now ≡ false }
    ensures { read_on result ≡ setting_of (seen scope.entry) q.now }
{
    Setting { scope }
}

/// An expression among the results.
pub fn result_of(alloc: Global, setting: &Setting<'_>, e: &Expr) -> Result<Typed, BindFault>
    ensures { Tells (result_of (read_on setting.now) e.now) result }
{
    on_rows(alloc, &setting.scope, e)
}

/// A column that a star is for.
pub fn star(setting: &Setting<'_>, slot: &Slot<'_>) -> Result<Typed, BindFault>
    ensures { Tells (read_in (read_on setting.now).grouping (name_reading (Ok (column (slot_of slot.now))))) result }
{
    Ok(Typed {
        value: Bound::Column(slot.place),
        class: slot.class,
    })
}
