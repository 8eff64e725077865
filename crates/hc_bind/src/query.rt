// SELECT: all tables of FROM, then items, ON conditions, WHERE, GROUP BY, HAVING and ORDER BY in the order of text.
ghost use Rattle.std.specs.Prelude.{◌≡◌, map, Some, Ok, IfOk, false};
ghost use Rattle.std.specs.List.{flat_map};
ghost use Rattle.std.specs.Option.{option_map, option_to_list};
ghost use Rattle.hc_ast.specs.declared.query.Item.TheVariants.{AllOf as All-of};
ghost use Rattle.hc_schema.specs.declared.typed.Typed.{Typed as A-typed};
ghost use Rattle.hc_schema.specs.Binding.Faults.{Judged, after, walk};
ghost use Rattle.hc_schema.specs.Binding.Changes.{with_condition};
ghost use Rattle.hc_schema.specs.Binding.Queries.{called, with_called, with_table, sources, is_grouped, with_item, items, conjuncts, having, query_in, query};
ghost use Rattle.hc_schema.specs.Binding.Statements.{query_of};
ghost use Rattle.hc_bind.specs.Answers.{Tells, TellsBy, TellsTo};
ghost use Rattle.hc_bind.specs.Scopes.{slot_of, seen};
ghost use Rattle.hc_bind.specs.Settings.{read_on, answer_of, from_of, star_if};

use crate::BindFault;
use crate::operator::{condition, values};
use crate::order::order;
use crate::row::{each_on_rows, push_condition};
use crate::scope::{Scope, Slot, ambiguous, is_of, no_table, table_called};
use crate::setting::{Setting, result_of, setting_of, star};
use hc_ast::{Bound, Expr, FromTable, Item, Select};
use hc_schema::{BoundSelect, Table, Typed};
use hc_value::{NoMemory, Str};
use sqlite_items::{Boxed, Items};
use std::alloc::Global;

/// The tables of FROM, and what is in scope by them.
#[derive(Drop)]
pub struct From<'a> {
    pub tables: Vec<&'a Table>,
    pub scope: Scope<'a>,
}

/// An item that is bound, with its alias.
#[derive(Drop)]
pub struct Answer<'a> {
    pub alias: Option<&'a str>,
    pub value: Bound,
}

// ---- FROM

// What a table of FROM is called.
fn called<'a>(alias: &'a Option<Boxed<Str>>, table: &'a Table) -> &'a str
    ensures { result.now ≡ called alias.now table.now }
{
    match alias {
        Some(alias) => alias.get().as_str(),
        None => table.name.as_str(),
    }
}

// A table under a name that no table before it has.
fn add_called<'a>(
    alloc: Global,
    from: &mut From<'a>,
    name: &'a str,
    table: &'a Table,
) -> Result<(), BindFault>
    ensures { TellsTo (with_called (from_of from.old) name.now table.now) (from_of from.new) result }
{
    if from.scope.is_source(name) {
        return Err(ambiguous(alloc, name));
    }
    from.tables.push(table)?;
    from.scope.add(name, table)
}

fn add_table<'a>(
    alloc: Global,
    tables: &'a [Table],
    from: &mut From<'a>,
    f: &'a FromTable,
) -> Result<(), BindFault>
    ensures { TellsTo (with_table tables.now (from_of from.old) f.now) (from_of from.new) result }
{
    let table = table_called(alloc, tables, f.name.as_str())?;
    add_called(alloc, from, called(&f.alias, table), table)
}

pub fn sources<'a>(
    alloc: Global,
    tables: &'a [Table],
    list: &'a [FromTable],
) -> Result<From<'a>, BindFault>
    ensures { TellsBy from_of (sources tables.now list.now) result }
{
    let mut from = From {
        tables: Vec::new(alloc),
        scope: Scope::new(alloc),
    };
    for f in list {
        match add_table(alloc, tables, &mut from, f) {
            Ok(()) => {}
            Err(fault) => return Err(fault),
        }
    }
    Ok(from)
}

// ---- items

// A column that a star is for; one of another table is passed over.
fn push_column<'a>(
    setting: &Setting<'_>,
    of: Option<&str>,
    slot: &Slot<'_>,
    out: &mut Vec<Answer<'a>>,
) -> Result<(), BindFault>
    ensures { TellsTo (star_if (read_on setting.now).grouping (option_map (λ s. s.now) of.entry) (map answer_of out.old.items) (slot_of slot.now)) (map answer_of out.new.items) result }
{
    if !is_of(of, slot) {
        return Ok(());
    }
    let t = star(setting, slot)?;
    out.push(Answer {
        alias: None,
        value: t.value,
    })?;
    Ok(())
}

// The columns that a star is for: all, or those of the table of this name.
fn push_star<'a>(
    setting: &Setting<'_>,
    slots: &[Slot<'_>],
    of: Option<&str>,
    out: &mut Vec<Answer<'a>>,
) -> Result<(), BindFault>
    ensures { TellsTo (walk (λ before slot. star_if (read_on setting.now).grouping (option_map (λ s. s.now) of.entry) before (slot_of slot)) (map answer_of out.old.items) slots.now) (map answer_of out.new.items) result }
{
    for slot in slots {
        match push_column(setting, of, slot, out) {
            Ok(()) => {}
            Err(fault) => return Err(fault),
        }
    }
    Ok(())
}

// `t.*`
fn push_all_of<'a>(
    alloc: Global,
    setting: &Setting<'a>,
    name: &str,
    out: &mut Vec<Answer<'a>>,
) -> Result<(), BindFault>
    ensures { TellsTo (with_item (read_on setting.now) (map answer_of out.old.items) (All-of name.now)) (map answer_of out.new.items) result }
{
    if setting.scope.is_source(name) {
        push_star(setting, setting.scope.slots.as_slice(), Some(name), out)
    } else {
        Err(no_table(alloc, name))
    }
}

fn alias_of(alias: &Option<Boxed<Str>>) -> Option<&str>
    ensures { option_map (λ a. a.now) result ≡ alias.now }
{
    match alias {
        Some(alias) => Some(alias.get().as_str()),
        None => None,
    }
}

fn push_item<'a>(
    alloc: Global,
    setting: &Setting<'a>,
    item: &'a Item,
    out: &mut Vec<Answer<'a>>,
) -> Result<(), BindFault>
    ensures { TellsTo (with_item (read_on setting.now) (map answer_of out.old.items) item.now) (map answer_of out.new.items) result }
{
    match item {
        Item::All => push_star(setting, setting.scope.slots.as_slice(), None, out),
        Item::AllOf(name) => push_all_of(alloc, setting, name.as_str(), out),
        Item::One { value, alias } => {
            let t = result_of(alloc, setting, value)?;
            out.push(Answer {
                alias: alias_of(alias),
                value: t.value,
            })?;
            Ok(())
        }
    }
}

fn items<'a>(
    alloc: Global,
    setting: &Setting<'a>,
    list: &'a [Item],
) -> Result<Vec<Answer<'a>>, BindFault>
    ensures { TellsBy (λ v. map answer_of v.items) (items (read_on setting.now) list.now) result }
{
    let mut out = Vec::new(alloc);
    for item in list {
        match push_item(alloc, setting, item, &mut out) {
            Ok(()) => {}
            Err(fault) => return Err(fault),
        }
    }
    Ok(out)
}

// The value of an item without its alias.
fn value_of(a: Answer<'_>) -> Bound
    ensures { result ≡ a.entry.value }
{
    a.value
}

// The values of the items alone.
#[tactic(auto, using(crate::proofs::Stars::map_values))]
fn values_of(alloc: Global, answers: Vec<Answer<'_>>) -> Result<Items<Bound>, NoMemory>
    ensures { IfOk result (λ vs. vs ≡ map (λ a. a.value) (map answer_of answers.entry.items)) }
{
    let values: Vec<Bound> = answers.into_iter().map(value_of).collect(alloc)?;
    Ok(Items::from_vec(values))
}

// ---- conditions

// The conjuncts of a condition, if there is one.
fn push_filter(
    alloc: Global,
    scope: &Scope<'_>,
    e: &Option<Expr>,
    out: &mut Vec<Bound>,
) -> Result<(), BindFault>
    ensures { TellsTo (walk (with_condition (seen scope.now)) out.old.items (option_to_list e.now)) out.new.items result }
{
    match e {
        Some(e) => push_condition(alloc, scope, e, out),
        None => Ok(()),
    }
}

// The ON conditions in order.
fn push_ons(
    alloc: Global,
    scope: &Scope<'_>,
    tables: &[FromTable],
    out: &mut Vec<Bound>,
) -> Result<(), BindFault>
    ensures { TellsTo (walk (with_condition (seen scope.now)) out.old.items (flat_map (λ from. option_to_list from.on) tables.now)) out.new.items result }
{
    for from in tables {
        match push_filter(alloc, scope, &from.on, out) {
            Ok(()) => {}
            Err(fault) => return Err(fault),
        }
    }
    Ok(())
}

// WHERE after the ON conditions.
fn with_filter(
    alloc: Global,
    scope: &Scope<'_>,
    e: &Option<Expr>,
    before: Vec<Bound>,
) -> Result<Items<Bound>, BindFault>
    ensures { Tells (walk (with_condition (seen scope.now)) before.items (option_to_list e.now)) result }
{
    let mut out = before;
    push_filter(alloc, scope, e, &mut out)?;
    Ok(Items::from_vec(out))
}

fn conjuncts(alloc: Global, scope: &Scope<'_>, q: &Select) -> Result<Items<Bound>, BindFault>
    ensures { Tells (conjuncts (seen scope.now) q.now) result }
{
    let mut out = Vec::new(alloc);
    match push_ons(alloc, scope, q.tables.as_slice(), &mut out) {
        Ok(()) => with_filter(alloc, scope, &q.filter, out),
        Err(fault) => Err(fault),
    }
}

// A condition that is there.
fn chosen(t: Result<Typed, BindFault>) -> Result<Option<Bound>, BindFault>
    ensures { (j : Judged A-typed) → Tells j t → Tells (after j (λ t. Ok (Some t.value))) result }
{
    let t = t?;
    Ok(Some(t.value))
}

fn having(
    alloc: Global,
    setting: &Setting<'_>,
    e: &Option<Expr>,
) -> Result<Option<Bound>, BindFault>
    ensures { Tells (having (read_on setting.now) e.now) result }
{
    match e {
        Some(e) => chosen(condition(result_of(alloc, setting, e))),
        None => Ok(None),
    }
}

// ---- the whole

// A query after its tables.
fn query_in<'a>(
    alloc: Global,
    q: &'a Select,
    tables: Vec<&'a Table>,
    setting: &Setting<'a>,
) -> Result<BoundSelect<'a>, BindFault>
    ensures { TellsBy query_of (query_in q.now (map (λ t. t.now) tables.entry.items) (read_on setting.now)) result }
{
    let answers = items(alloc, setting, q.items.as_slice())?;
    let conjuncts = conjuncts(alloc, &setting.scope, q)?;
    let groups = each_on_rows(alloc, &setting.scope, q.groups.as_slice())?;
    let having = having(alloc, setting, &q.having)?;
    let order = order(alloc, setting, q, answers.as_slice())?;
    let items = values_of(alloc, answers)?;
    let groups = values(alloc, groups)?;
    Ok(BoundSelect {
        tables: Items::from_vec(tables),
        conjuncts,
        grouped: false,
        groups,
        aggregates: Items::new(alloc),
        having,
        distinct: q.distinct,
        items,
        order,
        limit: q.limit,
        offset: q.offset,
    })
}

/// A query without groups over tables.
pub fn query<'a>(
    alloc: Global,
    q: &'a Select,
    tables: &'a [Table],
) -> Result<BoundSelect<'a>, BindFault>
    requires { is_grouped q.now ≡ false }
    ensures { TellsBy query_of (query tables.now q.now) result }
{
    let from = sources(alloc, tables, q.tables.as_slice())?;
    let setting = setting_of(from.scope, q);
    query_in(alloc, q, from.tables, &setting)
}
