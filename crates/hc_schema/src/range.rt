// Where the cells are: ranges of keys.
ghost use Rattle.std.specs.Prelude.{◌≡◌, IfOk};
ghost use Rattle.hc_schema.specs.Cells.{catalog_range, whole_catalog, tree_range, value_range};

use crate::names::key_name;
use hc_key::prefix_range;
use hc_range::Range;
use hc_value::{NoMemory, Value};
use std::alloc::Global;

/// The catalog range of a name: the cells of the table, its columns and its indexes, or that of the index.
pub fn catalog_range(alloc: Global, name: &str) -> Result<Range, NoMemory>
    ensures { IfOk result (λ range. range ≡ catalog_range name.now) }
{
    prefix_range(alloc, 0, &[key_name(alloc, name)?])
}

/// The range of the whole catalog.
pub fn whole_catalog(alloc: Global) -> Result<Range, NoMemory>
    ensures { IfOk result (λ range. range ≡ whole_catalog) }
{
    prefix_range(alloc, 0, &[])
}

/// The range of a tree: the rows of a table, or the entries of an index.
pub fn tree_range(alloc: Global, tree: u32) -> Result<Range, NoMemory>
    ensures { IfOk result (λ range. range ≡ tree_range tree) }
{
    prefix_range(alloc, tree, &[])
}

/// The entries of an index whose first columns have these values, or with a rowid alone the key of a row.
pub fn value_range(alloc: Global, tree: u32, values: &[Value]) -> Result<Range, NoMemory>
    ensures { IfOk result (λ range. range ≡ value_range tree values.now) }
{
    prefix_range(alloc, tree, values)
}
