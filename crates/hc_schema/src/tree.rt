// The next number of a tree.
ghost use Rattle.std.specs.Prelude.{◌≡◌, ◌<◌, ◌^◌, ℕ, pos, List, ◌∷◌, [], ◌++◌, ◌↔◌, IsTrue};
ghost use Rattle.hc_value.specs.declared.value.Value.{Value as AnyValue};
ghost use Rattle.hc_record.specs.Record.{encoding};
ghost use Rattle.hc_key.specs.Keys.{key_bytes};
ghost use Rattle.hc_schema.specs.declared.table.Table.{Table as AnyTable};
ghost use Rattle.hc_schema.specs.declared.entry.Entry.{Entry as AnyEntry};
ghost use Rattle.hc_schema.specs.Cells.{cell_of, number};
ghost use Rattle.hc_schema.specs.Trees.{IsCatalogOf, tree_numbers, IsNext, IsTelling, IsTold};

use crate::Cell;
use hc_record::integer_at;

/// The number that the tree of the next table or index gets: one more than the greatest of those in the catalog, from 1.
/// `None` where the greatest is 4294967295. The cells are those of the whole catalog, in whatever order; of other cells
/// nothing is said.
pub fn next_tree(catalog: &[Cell]) -> Option<u32>
    ensures { (tables : List AnyTable) → IsCatalogOf tables catalog.now → IsNext (tree_numbers tables) result }
{
    let mut greatest: u32 = 0;
    for cell in catalog {
        greatest = greatest.max(tree_told(cell));
    }
    greatest.checked_add(1)
}

// The tree that a cell of the catalog tells, or 0: the cells of tables and of the names of indexes do, whose keys end
// with 0.
fn tree_told(cell: &Cell) -> u32
    ensures { (e : AnyEntry) (n : ℕ) → IsTelling e n → cell.now ≡ cell_of e → result ≡ n }
{
    if !ends_with_zero(cell.key.as_slice()) {
        return 0;
    }
    number_told(cell.rec.as_slice())
}

// The number that a record tells at place 1, or where no integer is there, at place 2.
fn number_told(rec: &[u8]) -> u32
    ensures { (values : List AnyValue) (n : ℕ) → IsTold values n → rec.now ≡ encoding values → result ≡ n }
{
    if let Some(n) = integer_at(rec, 1) {
        return as_number(n);
    }
    match integer_at(rec, 2) {
        Some(n) => as_number(n),
        None => 0,
    }
}

fn as_number(n: i64) -> u32
    ensures { (m : ℕ) → m < 2 ^ 32 → n ≡ pos m → result ≡ m }
{
    u32::try_from(n).unwrap_or(0)
}

// Whether the last value of a key is the integer 0.
fn ends_with_zero(key: &[u8]) -> bool
    ensures { (front : List AnyValue) (n : ℕ) → n < 2 ^ 63 → key.now ≡ key_bytes 0 (front ++ number n ∷ []) → IsTrue result ↔ (n ≡ 0) }
{
    match key.split_last_chunk::<8>() {
        Some((_, last)) => u64::from_be_bytes(*last) == 1 << 63,
        None => false,
    }
}
