// What holds of values and of their order.
ghost use Rattle.std.specs.Prelude.{◌≡◌, ◌↔◌, FitsSigned};
ghost use Rattle.std.specs.Int.{w64};
ghost use Rattle.std.specs.Str.{IsUtf8};
ghost use Rattle.std.specs.Cmp.{IsTotalOrder};
ghost use Rattle.std.specs.declared.cmp.Ordering.TheVariants.{Equal};
ghost use Rattle.hc_value.specs.declared.value.Value.{Value as AnyValue};
ghost use Rattle.hc_value.specs.Order.{value_order};
ghost use Rattle.hc_value.specs.Values.{IsValue};

use crate::{Str, Value};

/// The order is total: turned round it is reversed, it goes on from value to value, and values that it
/// takes for equal compare alike with each other value.
pub fn the_order_of_values_is_total()
    ensures { IsTotalOrder value_order }
{}

/// Only a value itself is neither before nor after a value.
pub fn values_are_equal_in_order_exactly_when_they_are_the_same()
    ensures { (a b : AnyValue) → (value_order a b ≡ Equal) ↔ (a ≡ b) }
{}

/// A value of the program is what contracts call so: an integer of 64 bits, or a text in UTF-8.
pub fn a_value_is_one(v: &Value)
    ensures { IsValue v.now }
{
    match v {
        Value::Null => {}
        Value::Int(n) => an_integer_fits(*n),
        Value::Text(text) => a_text_is_utf8(text),
        Value::Blob(_) => {}
    }
}

fn an_integer_fits(n: i64)
    ensures { FitsSigned w64 n }
{
    let _ = n;
}

fn a_text_is_utf8(text: &Str)
    ensures { IsUtf8 text.now }
{
    let _ = text.as_str();
}
