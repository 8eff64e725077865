// The database that a history's commits lead to.
ghost use Rattle.std.specs.Prelude.{◌≡◌, IfOk};
ghost use Rattle.hc_meaning.specs.History.{state};

use crate::reference::shown::Shown;
use crate::{Db, Ran};
use hc_value::NoMemory;
use sqlite_items::Items;
use std::alloc::Global;

/// The database after the first k transactions of a history, run one after another from the empty
/// one.
pub fn state(alloc: Global, history: &[Shown<'_>], k: usize) -> Result<Db, NoMemory>
    ensures { IfOk result (λ db. db ≡ state history.now k) }
{
    let first = &history[..k.min(history.len())];
    let mut db = Items::new(alloc);
    for transaction in first {
        let Ran {
            answers: _,
            db: next,
        } = transaction.run_on(alloc, db.as_slice())?;
        db = next;
    }
    Ok(db)
}
