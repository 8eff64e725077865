// ORDER BY: an item by its number or its alias, or an expression.
ghost use Rattle.std.specs.Prelude.{◌≡◌, ℕ, List, Some, None, map, IfOk, IfErr, OnOk, if◌then◌else◌};
ghost use Rattle.std.specs.Option.{option_map, option_or};
ghost use Rattle.hc_schema.specs.Binding.Queries.{alias_is, numbered, item_of, if_item, expression_term, term_of, shape_of, Bare, sorted_by, order};
ghost use Rattle.hc_schema.specs.Binding.Writing.{written};
ghost use Rattle.hc_bind.specs.Answers.{Tells};
ghost use Rattle.hc_bind.specs.First.{place_at};
ghost use Rattle.hc_bind.specs.Settings.{read_on, answer_of};
ghost use Rattle.hc_bind.specs.Sorted.{KnowsAliases, KnowsItems, KnowsDistinct, items_of};
ghost use Rattle.hc_bind.specs.declared.fault.BindFault.TheVariants.{NoMemory};

use crate::BindFault;
use crate::copying::copied;
use crate::places::Places;
use crate::query::Answer;
use crate::scope::counted;
use crate::setting::{Setting, result_of};
use crate::writing::push_written;
use hc_ast::{Bound, Expr, Select, Term};
use hc_schema::SortKey;
use hc_value::{NoMemory, Value};
use sqlite_items::Items;
use std::alloc::Global;

fn note_alias(
    alloc: Global,
    places: &mut Places,
    alias: Option<&str>,
    place: u32,
) -> Result<(), NoMemory>
    ensures { OnOk result ((q : List ℕ) → place_at places.new q ≡ option_or (place_at places.old q) (if alias_is q (option_map (λ a. a.now) alias.entry) then Some place else None)) }
{
    match alias {
        Some(alias) => {
            let key = alias.to_ascii_lowercase(alloc)?;
            places.note(key.into_bytes(), place)
        }
        None => Ok(()),
    }
}

// The first item of each alias, in lower case.
fn aliases(alloc: Global, answers: &[Answer<'_>]) -> Result<Places, BindFault>
    ensures ok { IfOk result (λ p. KnowsAliases p (map answer_of answers.now)) }
    ensures err { IfErr result (λ e. e ≡ NoMemory) }
{
    let mut places = Places::new(alloc);
    for i in 0..answers.len() {
        let place = counted(i)?;
        note_alias(alloc, &mut places, answers[i].alias, place)?;
    }
    Ok(places)
}

fn writing(alloc: Global, e: &Bound) -> Result<Vec<u8>, NoMemory>
    ensures { IfOk result (λ v. v.items ≡ written e.now) }
{
    let mut out = Vec::new(alloc);
    push_written(&mut out, e)?;
    Ok(out)
}

// The first place of each item.
fn known_items(alloc: Global, answers: &[Answer<'_>]) -> Result<Places, BindFault>
    ensures ok { IfOk result (λ p. KnowsItems p (map answer_of answers.now)) }
    ensures err { IfErr result (λ e. e ≡ NoMemory) }
{
    let mut places = Places::new(alloc);
    for i in 0..answers.len() {
        let place = counted(i)?;
        let key = writing(alloc, &answers[i].value)?;
        places.note(key, place)?;
    }
    Ok(places)
}

fn distinct_items(
    alloc: Global,
    is_distinct: bool,
    answers: &[Answer<'_>],
) -> Result<Option<Places>, BindFault>
    ensures ok { IfOk result (λ p. KnowsDistinct is_distinct p (map answer_of answers.now)) }
    ensures err { IfErr result (λ e. e ≡ NoMemory) }
{
    if is_distinct {
        Ok(Some(known_items(alloc, answers)?))
    } else {
        Ok(None)
    }
}

// A copy of the item of a number, counted from 1.
fn numbered(alloc: Global, answers: &[Answer<'_>], n: i64) -> Result<Bound, BindFault>
    ensures { Tells (numbered (map answer_of answers.now) n) result }
{
    if n < 1 {
        return Err(BindFault::NoItem(n));
    }
    match answers.get((n - 1) as usize) {
        Some(a) => Ok(copied(alloc, &a.value)?),
        None => Err(BindFault::NoItem(n)),
    }
}

// A copy of the item at a place.
fn item_of(alloc: Global, answers: &[Answer<'_>], place: u32) -> Result<Bound, BindFault>
    ensures { Tells (item_of (map answer_of answers.now) place) result }
{
    match answers.get(place as usize) {
        Some(a) => Ok(copied(alloc, &a.value)?),
        None => Err(BindFault::NotItem),
    }
}

// What terms are sought in: the items, by their aliases and by what they are.
#[derive(Drop)]
pub struct Sought<'a> {
    pub answers: &'a [Answer<'a>],
    pub aliases: Places,
    pub distinct: bool,
    pub known: Option<Places>,
}

// An expression that must be an item where rows are distinct.
fn if_item(alloc: Global, sought: &Sought<'_>, value: Bound) -> Result<Bound, BindFault>
    requires { KnowsDistinct sought.now.distinct sought.now.known (items_of sought.now) }
    ensures { Tells (if_item sought.now.distinct (items_of sought.now) value) result }
{
    match &sought.known {
        None => Ok(value),
        Some(places) => {
            let key = writing(alloc, &value)?;
            match places.get(key.as_slice()) {
                Some(_) => Ok(value),
                None => Err(BindFault::NotItem),
            }
        }
    }
}

fn expression(
    alloc: Global,
    setting: &Setting<'_>,
    sought: &Sought<'_>,
    e: &Expr,
) -> Result<Bound, BindFault>
    requires { KnowsDistinct sought.now.distinct sought.now.known (items_of sought.now) }
    ensures { Tells (expression_term (read_on setting.now) sought.now.distinct (items_of sought.now) e.now) result }
{
    let t = result_of(alloc, setting, e)?;
    if_item(alloc, sought, t.value)
}

// The item of an alias, or else an expression.
fn named(
    alloc: Global,
    setting: &Setting<'_>,
    sought: &Sought<'_>,
    e: &Expr,
    name: &str,
) -> Result<Bound, BindFault>
    requires aliases { KnowsAliases sought.now.aliases (items_of sought.now) }
    requires items { KnowsDistinct sought.now.distinct sought.now.known (items_of sought.now) }
    ensures { Tells (term_of (read_on setting.now) sought.now.distinct (items_of sought.now) e.now (Bare name.now)) result }
{
    let key = name.to_ascii_lowercase(alloc)?;
    match sought.aliases.get(key.as_bytes()) {
        Some(place) => item_of(alloc, sought.answers, place),
        None => expression(alloc, setting, sought, e),
    }
}

fn term(
    alloc: Global,
    setting: &Setting<'_>,
    sought: &Sought<'_>,
    e: &Expr,
) -> Result<Bound, BindFault>
    requires aliases { KnowsAliases sought.now.aliases (items_of sought.now) }
    requires items { KnowsDistinct sought.now.distinct sought.now.known (items_of sought.now) }
    ensures { Tells (term_of (read_on setting.now) sought.now.distinct (items_of sought.now) e.now (shape_of e.now)) result }
{
    match e {
        Expr::Value(Value::Int(n)) => numbered(alloc, sought.answers, *n),
        Expr::Name {
            table: None,
            column,
        } => named(alloc, setting, sought, e, column.as_str()),
        _ => expression(alloc, setting, sought, e),
    }
}

fn sorted_by(
    alloc: Global,
    setting: &Setting<'_>,
    sought: &Sought<'_>,
    t: &Term,
) -> Result<SortKey, BindFault>
    requires aliases { KnowsAliases sought.now.aliases (items_of sought.now) }
    requires items { KnowsDistinct sought.now.distinct sought.now.known (items_of sought.now) }
    ensures { Tells (sorted_by (read_on setting.now) sought.now.distinct (items_of sought.now) t.now) result }
{
    let value = term(alloc, setting, sought, &t.value)?;
    let desc = t.desc;
    Ok(SortKey { value, desc })
}

fn keys(
    alloc: Global,
    setting: &Setting<'_>,
    sought: &Sought<'_>,
    terms: &[Term],
) -> Result<Items<SortKey>, BindFault>
    requires aliases { KnowsAliases sought.now.aliases (items_of sought.now) }
    requires items { KnowsDistinct sought.now.distinct sought.now.known (items_of sought.now) }
    ensures { Tells (order (read_on setting.now) sought.now.distinct (items_of sought.now) terms.now) result }
{
    let mut found = Items::new(alloc);
    for t in terms {
        match sorted_by(alloc, setting, sought, t) {
            Ok(key) => found.push(key)?,
            Err(fault) => return Err(fault),
        }
    }
    Ok(found)
}

/// The keys of ORDER BY.
pub fn order(
    alloc: Global,
    setting: &Setting<'_>,
    q: &Select,
    answers: &[Answer<'_>],
) -> Result<Items<SortKey>, BindFault>
    ensures { Tells (order (read_on setting.now) q.now.distinct (map answer_of answers.now) q.now.order) result }
{
    if q.order.is_empty() {
        return Ok(Items::new(alloc));
    }
    let sought = Sought {
        answers,
        aliases: aliases(alloc, answers)?,
        distinct: q.distinct,
        known: distinct_items(alloc, q.distinct, answers)?,
    };
    keys(alloc, setting, &sought, q.order.as_slice())
}
