// Classes of operands that fit together.
ghost use Rattle.std.specs.Prelude.{◌≡◌};
ghost use Rattle.hc_schema.specs.Binding.Classes.{fits, all_fit, common, with_class, one_class, result_if, of_both, compared, operator_class};

use hc_ast::BinaryOp;
use hc_schema::Typed;
use hc_value::Class;

/// Whether a value of a class may be where another is wanted. NULL may be anywhere.
pub fn fits(class: Class, wanted: Class) -> bool
    ensures { result ≡ fits class wanted }
{
    class == Class::Null || class == wanted
}

/// Whether all fit.
pub fn all_fit(list: &[Typed], wanted: Class) -> bool
    ensures { result ≡ all_fit list.now wanted }
{
    list.iter().all(|t| fits(t.class, wanted))
}

/// The one class of two, if they have one.
pub fn common(class: Class, other: Class) -> Option<Class>
    ensures { result ≡ common class other }
{
    if class == Class::Null {
        Some(other)
    } else if other == Class::Null || class == other {
        Some(class)
    } else {
        None
    }
}

fn with_class(one: Option<Class>, t: &Typed) -> Option<Class>
    ensures { result ≡ with_class one t.now }
{
    match one {
        Some(class) => common(class, t.class),
        None => None,
    }
}

/// The one class of a class and several expressions, if they have one.
pub fn one_class(first: Class, list: &[Typed]) -> Option<Class>
    ensures { result ≡ one_class first list.now }
{
    let mut one = Some(first);
    for t in list {
        one = with_class(one, t);
    }
    one
}

/// A class where a condition holds.
pub fn result_if(holds: bool, class: Class) -> Option<Class>
    ensures { result ≡ result_if holds class }
{
    if holds { Some(class) } else { None }
}

/// The class `made`, where two fit the one that is wanted.
pub fn of_both(wanted: Class, left: Class, right: Class, made: Class) -> Option<Class>
    ensures { result ≡ of_both wanted left right made }
{
    result_if(fits(left, wanted) && fits(right, wanted), made)
}

/// An integer, where operands have one class.
pub fn compared(one: Option<Class>) -> Option<Class>
    ensures { result ≡ compared one }
{
    result_if(one.is_some(), Class::Int)
}

/// The class of what an operator makes of operands of two classes, if they fit it.
pub fn operator_class(op: BinaryOp, left: Class, right: Class) -> Option<Class>
    ensures { result ≡ operator_class op left right }
{
    match op {
        BinaryOp::Eq
        | BinaryOp::Ne
        | BinaryOp::Is
        | BinaryOp::IsNot
        | BinaryOp::Lt
        | BinaryOp::Le
        | BinaryOp::Gt
        | BinaryOp::Ge => compared(common(left, right)),
        BinaryOp::Concat => of_both(Class::Text, left, right, Class::Text),
        BinaryOp::Or
        | BinaryOp::And
        | BinaryOp::Add
        | BinaryOp::Sub
        | BinaryOp::Mul
        | BinaryOp::Div
        | BinaryOp::Rem => of_both(Class::Int, left, right, Class::Int),
    }
}
