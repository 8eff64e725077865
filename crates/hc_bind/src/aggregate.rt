// Whether a query is grouped.
ghost use Rattle.std.specs.Prelude.{◌≡◌, map};
ghost use Rattle.std.specs.List.{flat_map, list_any};
ghost use Rattle.std.specs.Option.{option_to_list};
ghost use Rattle.hc_schema.specs.Binding.Expressions.{has_aggregate, any_of};
ghost use Rattle.hc_schema.specs.Binding.Queries.{item_expressions, is_empty, is_grouped};

use crate::function::{function_of, is_aggregate, is_count};
use hc_ast::{Expr, Item, Select, Term};

// Whether a call of an aggregate is in an expression, also one that has a fault.
#[cycle(has_aggregate)]
fn has_aggregate(e: &Expr) -> bool
    ensures { result ≡ has_aggregate e.now }
{
    match e {
        Expr::Value(_) | Expr::Name { .. } => false,
        Expr::Not(of) | Expr::Minus(of) | Expr::Plus(of) => has_aggregate(of.get()),
        Expr::Binary { left, right, .. } => has_aggregate(left.get()) || has_aggregate(right.get()),
        Expr::OneOf { left, list, .. } => has_aggregate(left.get()) || any_has(list.as_slice()),
        Expr::Like { left, pattern, .. } => {
            has_aggregate(left.get()) || has_aggregate(pattern.get())
        }
        Expr::Between {
            left,
            low,
            high,
            ..
        } => has_aggregate(left.get()) || has_aggregate(low.get()) || has_aggregate(high.get()),
        Expr::Call { name, args } => {
            is_aggregate(function_of(name.get().as_str())) || any_has(args.as_slice())
        }
        Expr::CallAll { name } => is_count(function_of(name.as_str())),
    }
}

#[cycle(has_aggregate)]
fn any_has(list: &[Expr]) -> bool
    ensures { result ≡ any_of (map has_aggregate list.now) }
{
    for e in list {
        if has_aggregate(e) {
            return true;
        }
    }
    false
}

fn item_has(item: &Item) -> bool
    ensures { result ≡ list_any has_aggregate (item_expressions item.now) }
{
    match item {
        Item::One { value, .. } => has_aggregate(value),
        _ => false,
    }
}

fn any_item(items: &[Item]) -> bool
    ensures { result ≡ list_any (λ item. list_any has_aggregate (item_expressions item)) items.now }
{
    items.iter().any(|item| item_has(item))
}

fn items_have(items: &[Item]) -> bool
    ensures { result ≡ list_any has_aggregate (flat_map item_expressions items.now) }
{
    any_item(items)
}

fn having_has(having: &Option<Expr>) -> bool
    ensures { result ≡ list_any has_aggregate (option_to_list having.now) }
{
    match having {
        Some(e) => has_aggregate(e),
        None => false,
    }
}

fn any_term(terms: &[Term]) -> bool
    ensures { result ≡ list_any (λ term. has_aggregate term.value) terms.now }
{
    terms.iter().any(|term| has_aggregate(&term.value))
}

fn terms_have(terms: &[Term]) -> bool
    ensures { result ≡ list_any has_aggregate (map (λ term. term.value) terms.now) }
{
    any_term(terms)
}

fn is_empty(list: &[Expr]) -> bool
    ensures { result ≡ is_empty list.now }
{
    match list.split_first() {
        Some(_) => false,
        None => true,
    }
}

/// Whether a query has GROUP BY or an aggregate.
#[tactic(auto, using(crate::proofs::Aggregates::any_in_results))]
pub fn is_grouped(q: &Select) -> bool
    ensures { result ≡ is_grouped q.now }
{
    !is_empty(q.groups.as_slice())
        || (items_have(q.items.as_slice())
            || (having_has(&q.having) || terms_have(q.order.as_slice())))
}
