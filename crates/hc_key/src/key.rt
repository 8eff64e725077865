ghost use Rattle.std.specs.Prelude.{◌≡◌, ◌++◌, IfOk, OnOk};
ghost use Rattle.hc_value.specs.Values.{AreValues};
ghost use Rattle.hc_key.specs.Keys.{key_bytes, list_bytes};
ghost use Rattle.hc_key.specs.Laws.{range_of, HoldsPrefixed};

use crate::value::{are_values, push_value};
use hc_range::{Bytes, Range};
use hc_value::laws::values_are_equal_in_order_exactly_when_they_are_the_same;
use hc_value::{NoMemory, Value};
use std::alloc::Global;

/// The key of a tree's number and a list of values.
pub fn key_of(alloc: Global, tree: u32, values: &[Value]) -> Result<Bytes, NoMemory>
    ensures key { IfOk result (λ key. key ≡ key_bytes tree values.now) }
    // What the values are, for the laws and for `values_of`.
    ensures values { AreValues values.now }
{
    are_values(values);
    Ok(Bytes::from_vec(written(alloc, tree, values)?))
}

/// The range of the keys of a tree whose lists begin with these values: from the key of the values
/// themselves up to that key and a byte FF. No key goes on with FF, since no class of values has it.
pub fn prefix_range(alloc: Global, tree: u32, values: &[Value]) -> Result<Range, NoMemory>
    // From where to where.
    ensures ends { IfOk result (λ range. range ≡ range_of tree values.now) }
    // Which keys it holds.
    ensures keys { IfOk result (λ range. HoldsPrefixed range tree values.now) }
{
    are_values(values);
    values_are_equal_in_order_exactly_when_they_are_the_same();
    let mut hi = written(alloc, tree, values)?;
    let lo = Bytes::from_slice(alloc, hi.as_slice())?;
    hi.push(0xff)?;
    Ok(Range {
        lo,
        hi: Some(Bytes::from_vec(hi)),
    })
}

// A key in a vector, which may have room for more.
#[tactic(auto, unfolding(crate::specs::Keys::key_bytes))]
fn written(alloc: Global, tree: u32, values: &[Value]) -> Result<Vec<u8>, NoMemory>
    ensures { IfOk result (λ key. key.items ≡ key_bytes tree values.now) }
{
    let mut out = Vec::new(alloc);
    out.extend_from_slice(&tree.to_be_bytes())?;
    push_values(&mut out, values)?;
    Ok(out)
}

fn push_values(out: &mut Vec<u8>, values: &[Value]) -> Result<(), NoMemory>
    ensures { OnOk result (out.new.items ≡ out.old.items ++ list_bytes values.now) }
{
    for v in values {
        push_value(out, v)?;
    }
    Ok(())
}
