// The functions by their names.
ghost use Rattle.std.specs.Prelude.{◌≡◌};
ghost use Rattle.std.specs.List.{list_all};
ghost use Rattle.hc_schema.specs.Binding.Functions.{function_of, is_aggregate, is_count, wanted, call_class, first_class, has_length};

use crate::class::{all_fit, fits, one_class, result_if};
use crate::names::is_same;
use hc_schema::{AggregateKind, Function, Typed};
use hc_value::Class;

/// The function of a name, in letters of any case.
pub fn function_of(name: &str) -> Option<Function>
    ensures { result ≡ function_of name.now }
{
    if is_same("length", name) {
        Some(Function::Length)
    } else if is_same("abs", name) {
        Some(Function::Abs)
    } else if is_same("coalesce", name) {
        Some(Function::Coalesce)
    } else if is_same("count", name) {
        Some(Function::Over(AggregateKind::Count))
    } else if is_same("sum", name) {
        Some(Function::Over(AggregateKind::Sum))
    } else if is_same("min", name) {
        Some(Function::Over(AggregateKind::Min))
    } else if is_same("max", name) {
        Some(Function::Over(AggregateKind::Max))
    } else {
        None
    }
}

/// Whether it is one over the rows of a group.
pub fn is_aggregate(function: Option<Function>) -> bool
    ensures { result ≡ is_aggregate function }
{
    matches!(function, Some(Function::Over(_)))
}

/// Whether it is `count`, which alone may have `*`.
pub fn is_count(function: Option<Function>) -> bool
    ensures { result ≡ is_count function }
{
    matches!(function, Some(Function::Over(AggregateKind::Count)))
}

/// How many arguments are wanted where so many are given.
pub fn wanted(function: Function, given: usize) -> usize
    ensures { result ≡ wanted function given }
{
    match function {
        Function::Coalesce => given.max(2),
        _ => 1,
    }
}

fn has_length(given: Class) -> bool
    ensures { result ≡ has_length given }
{
    fits(given, Class::Text) || fits(given, Class::Blob)
}

fn all_have_length(args: &[Typed]) -> bool
    ensures { result ≡ list_all (λ t. has_length t.class) args.now }
{
    args.iter().all(|t| has_length(t.class))
}

fn first_class(args: &[Typed]) -> Class
    ensures { result ≡ first_class args.now }
{
    match args.split_first() {
        Some((t, _)) => t.class,
        None => Class::Null,
    }
}

/// The class of a call, whatever the number of its arguments; none where their classes do not fit it.
pub fn call_class(function: Function, args: &[Typed]) -> Option<Class>
    ensures { result ≡ call_class function args.now }
{
    match function {
        Function::Length => result_if(all_have_length(args), Class::Int),
        Function::Abs | Function::Over(AggregateKind::Sum) => {
            result_if(all_fit(args, Class::Int), Class::Int)
        }
        Function::Coalesce => one_class(Class::Null, args),
        Function::Over(AggregateKind::Count) => Some(Class::Int),
        Function::Over(AggregateKind::Min | AggregateKind::Max) => Some(first_class(args)),
    }
}
