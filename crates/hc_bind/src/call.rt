// Calls, after their arguments: an unknown name, then classes, then an aggregate where none may be, then the number.
ghost use Rattle.std.specs.Prelude.{◌≡◌, List, [], ◌∷◌, length, IfOk};
ghost use Rattle.hc_schema.specs.declared.typed.Typed.{Typed as A-typed};
ghost use Rattle.hc_schema.specs.Binding.Faults.{Judged, each, NoFunction as No-function};
ghost use Rattle.hc_schema.specs.Binding.Functions.{wanted};
ghost use Rattle.hc_schema.specs.Binding.Expressions.{values_of, applied, counted, called, row_call, row_function};
ghost use Rattle.hc_bind.specs.Answers.{FaultIs, Tells, TellsBy};

use crate::BindFault;
use crate::function::{call_class, function_of, wanted};
use crate::operator::values;
use crate::scope::counted;
use hc_ast::Bound;
use hc_schema::{Called, Function, Typed};
use hc_value::{NoMemory, Str};
use sqlite_items::Boxed;
use std::alloc::Global;

pub fn no_function(alloc: Global, name: &str) -> BindFault
    ensures { FaultIs result (No-function name.now) }
{
    match Str::from_text(alloc, name) {
        Ok(name) => BindFault::NoFunction(name),
        Err(_) => BindFault::NoMemory,
    }
}

// The function of a name, and the class of its call.
fn called(alloc: Global, name: &str, args: &[Typed]) -> Result<Called, BindFault>
    ensures { Tells (called name.now args.now) result }
{
    match function_of(name) {
        None => Err(no_function(alloc, name)),
        Some(function) => match call_class(function, args) {
            Some(class) => Ok(Called { function, class }),
            None => Err(BindFault::Mixed),
        },
    }
}

// As many arguments as are wanted, and no other number.
fn with_count(function: Function, args: Vec<Typed>) -> Result<Vec<Typed>, BindFault>
    ensures tells { TellsBy (λ v. v.items) (counted function args.items) result }
    ensures count { IfOk result (λ v. length v.items ≡ wanted function (length v.items)) }
{
    let given = args.len();
    let wanted = wanted(function, given);
    if given == wanted {
        return Ok(args);
    }
    Err(BindFault::Arity {
        given: counted(given)?,
        wanted: counted(wanted)?,
    })
}

// The one expression of a list of one.
fn only(args: Vec<Typed>) -> Bound
    requires { length args.items ≡ 1 }
    ensures { values_of args.items ≡ result ∷ [] }
{
    let mut args = args;
    match args.pop() {
        Some(t) => t.value,
        None => unreachable!(),
    }
}

// A function of a row, with as many arguments as it wants.
fn applied(alloc: Global, function: Function, args: Vec<Typed>) -> Result<Bound, NoMemory>
    requires { length args.items ≡ wanted function (length args.items) }
    ensures { IfOk result (λ b. b ≡ applied function (values_of args.items)) }
{
    match function {
        Function::Length => Ok(Bound::Length(Boxed::new(alloc, only(args))?)),
        Function::Abs => Ok(Bound::Abs(Boxed::new(alloc, only(args))?)),
        _ => Ok(Bound::Coalesce(values(alloc, args)?)),
    }
}

fn row_call(alloc: Global, call: Called, args: Vec<Typed>) -> Result<Typed, BindFault>
    ensures { Tells (row_call args.items call) result }
{
    if let Function::Over(_) = call.function {
        return Err(BindFault::Aggregate);
    }
    let args = with_count(call.function, args)?;
    let value = applied(alloc, call.function, args)?;
    let class = call.class;
    Ok(Typed { value, class })
}

/// A call of a function of a row, where no aggregate may be.
pub fn row_function(
    alloc: Global,
    name: &str,
    args: Result<Vec<Typed>, BindFault>,
) -> Result<Typed, BindFault>
    ensures { (js : List (Judged A-typed)) → TellsBy (λ v. v.items) (each js) args → Tells (row_function name.now js) result }
{
    let args = args?;
    let call = called(alloc, name, args.as_slice())?;
    row_call(alloc, call, args)
}
