// A key is read: the tree's number, and the values one after another.
ghost use Rattle.std.specs.Prelude.{◌≡◌, ℕ, ◌^◌, ◌<◌, List, [], ◌++◌, length, IfOk, IfErr};
ghost use Rattle.hc_value.specs.declared.value.Value.{Value as Column};
ghost use Rattle.hc_value.specs.Values.{AreValues};
ghost use Rattle.hc_key.specs.Keys.{key_bytes};
ghost use Rattle.hc_key.specs.Reading.{IsKeyFault};

use crate::KeyFault;
use crate::reader::value_after;
use hc_value::Value;
use hc_value::laws::values_are_equal_in_order_exactly_when_they_are_the_same;
use sqlite_items::Items;
use std::alloc::Global;

/// The tree's number and the list of values whose key the bytes are.
pub fn values_of(alloc: Global, key: &[u8]) -> Result<(u32, Items<Value>), KeyFault>
    requires { length key.now < 2 ^ 32 }
    // What is read has this key.
    ensures found { IfOk result (λ found. AreValues found.1 × (key.now ≡ key_bytes found.0 found.1)) }
    // What has this key is read, unless memory runs out.
    ensures only { (tree : ℕ) (values : List Column) → tree < 2 ^ 32 → AreValues values → key.now ≡ key_bytes tree values
        → IfErr result (λ fault. fault ≡ KeyFault.NoMemory) }
    // Where other bytes are at fault.
    ensures fault { IfErr result (IsKeyFault key.now) }
{
    let Some((bytes, rest)) = key.split_first_chunk::<4>() else {
        return Err(KeyFault::Bad {
            at: key.len() as u32,
        });
    };
    let tree = u32::from_be_bytes(*bytes);
    let values = values_after(alloc, key, tree, rest)?;
    Ok((tree, values))
}

// The values after the number of the tree.
fn values_after(alloc: Global, key: &[u8], tree: u32, rest: &[u8]) -> Result<Items<Value>, KeyFault>
    requires fits { length key.now < 2 ^ 32 }
    requires front { key.now ≡ key_bytes tree [] ++ rest.now }
    ensures found { IfOk result (λ values. AreValues values × (key.now ≡ key_bytes tree values)) }
    ensures fault { IfErr result (IsKeyFault key.now) }
{
    values_are_equal_in_order_exactly_when_they_are_the_same();
    let mut values = Items::new(alloc);
    let mut left = rest;
    while let Some((class, tail)) = left.split_first() {
        let place = (key.len() - left.len()) as u32;
        let (value, after) = value_after(alloc, *class, tail, place)?;
        values.push(value)?;
        left = after;
    }
    Ok(values)
}
