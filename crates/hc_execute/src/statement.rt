// One statement of the table.
ghost use Rattle.std.specs.Prelude.{◌≡◌, IfOk, OnErr, OnOk};
ghost use Rattle.hc_core.specs.Desk.{GoesOn};
ghost use Rattle.hc_txn.specs.Reading.{only};
ghost use Rattle.hc_txn.specs.Transactions.{HasOnlyRead, IsOf, LogsKeyToo, LogsWithin};
ghost use Rattle.hc_table.specs.Language.{table_language};
ghost use Rattle.hc_table.specs.Rows.{row_key};
ghost use Rattle.hc_table.specs.Statements.{id_of};
ghost use Rattle.hc_execute.specs.Done.{IsDone, IsLeft, IsThere, own_with};
ghost use Rattle.hc_execute.specs.Running.{ChangesNothing, HasFallenShort, HasRun};

use hc_ast::Stmt;
use hc_core::Desk;
use hc_key::laws::{byte_order_is_value_order, keys_of_different_lists_differ};
use hc_meaning::Answer;
use hc_range::Bytes;
use hc_record::laws::no_encoding_begins_another;
use hc_table::{Action, action_of, no_statement, row_key, row_record, value_in};
use hc_txn::Txn;
use hc_value::NoMemory;
use std::alloc::{AllocError, Global};

/// Runs a statement in a transaction, and answers what the table's language says for every database that may be its
/// snapshot. What the statement reads is logged, and nothing else.
///
/// # Errors
///
/// `NoMemory` where an allocation is refused. The transaction's own writes are as before then, and at most what the
/// statement reads is logged.
pub fn execute<D: Desk>(
    alloc: Global,
    txn: &mut Txn,
    desk: &mut D,
    statement: &Stmt,
) -> Result<Answer, NoMemory>
    requires of { IsOf (D.account desk.old) txn.old }
    ensures ran { IfOk result (λ answer. HasRun table_language statement.now (D.account desk.new) txn.old txn.new answer) }
    ensures refused { IfOk result (λ answer. ChangesNothing txn.old txn.new answer) }
    ensures no_memory { OnErr result (HasFallenShort table_language statement.now (D.account desk.new) txn.old txn.new) }
    ensures same { txn.new ≡ record txn.old { log = txn.new.log; own = txn.new.own; kept = txn.new.kept } }
    ensures of { IsOf (D.account desk.new) txn.new }
    ensures reads { HasOnlyRead (D.conn desk.old) (D.account desk.old) (D.account desk.new) }
    ensures on { GoesOn D.conn D.most D.seen D.later desk.old desk.new }
{
    byte_order_is_value_order();
    keys_of_different_lists_differ();
    no_encoding_begins_another();
    match action_of(statement) {
        Some(action) => carry_out(alloc, txn, desk, action),
        None => Ok(no_statement(alloc)),
    }
}

// Memory for the answer comes before the write, so nothing has to be undone.
fn carry_out<D: Desk>(
    alloc: Global,
    txn: &mut Txn,
    desk: &mut D,
    action: Action,
) -> Result<Answer, NoMemory>
    requires of { IsOf (D.account desk.old) txn.old }
    ensures done { IfOk result (λ answer. IsDone action (D.account desk.new) txn.old txn.new answer) }
    ensures left { OnErr result (IsLeft action txn.old txn.new) }
    ensures same { txn.new ≡ record txn.old { log = txn.new.log; own = txn.new.own; kept = txn.new.kept } }
    ensures of { IsOf (D.account desk.new) txn.new }
    ensures reads { HasOnlyRead (D.conn desk.old) (D.account desk.old) (D.account desk.new) }
    ensures on { GoesOn D.conn D.most D.seen D.later desk.old desk.new }
{
    let key = key_of(alloc, action)?;
    let there = look(txn, desk, key.as_slice())?;
    let answer = action.answer_at(alloc, there)?;
    put(alloc, txn, desk, key.as_slice(), action.put_at(there))?;
    Ok(answer)
}

// The key of the one row that a statement looks at.
fn key_of(alloc: Global, action: Action) -> Result<Bytes, NoMemory>
    ensures { IfOk result (λ key. key ≡ row_key (id_of action)) }
{
    row_key(alloc, action.id())
}

// The value of the row with a key, as the transaction sees it.
fn look<D: Desk>(txn: &mut Txn, desk: &mut D, key: &[u8]) -> Result<Option<i64>, NoMemory>
    requires of { IsOf (D.account desk.old) txn.old }
    ensures found { IfOk result (λ there. IsThere (D.account desk.new) txn.old.own key.now there) }
    ensures log { OnOk result (LogsKeyToo key.now txn.old.log txn.new.log) }
    ensures no_memory { OnErr result (LogsWithin (only key.now) txn.old.log txn.new.log) }
    ensures same { txn.new ≡ record txn.old { log = txn.new.log } }
    ensures of { IsOf (D.account desk.new) txn.new }
    ensures reads { HasOnlyRead (D.conn desk.old) (D.account desk.old) (D.account desk.new) }
    ensures on { GoesOn D.conn D.most D.seen D.later desk.old desk.new }
{
    match txn.get(desk, key)? {
        Some(bytes) => Ok(value_in(bytes.as_slice())),
        None => Ok(None),
    }
}

// Puts a row's new value, where there is one. No entry of this table is over the limit.
fn put<D: Desk>(
    alloc: Global,
    txn: &mut Txn,
    desk: &mut D,
    key: &[u8],
    value: Option<i64>,
) -> Result<(), NoMemory>
    requires of { IsOf (D.account desk.old) txn.old }
    ensures own { OnOk result (txn.new.own ≡ own_with key.now value txn.old.own) }
    ensures no_memory { OnErr result (txn.new.own ≡ txn.old.own) }
    ensures log { LogsWithin (only key.now) txn.old.log txn.new.log }
    ensures same { txn.new ≡ record txn.old { log = txn.new.log; own = txn.new.own; kept = txn.new.kept } }
    ensures of { IsOf (D.account desk.new) txn.new }
    ensures reads { HasOnlyRead (D.conn desk.old) (D.account desk.old) (D.account desk.new) }
    ensures on { GoesOn D.conn D.most D.seen D.later desk.old desk.new }
{
    let Some(v) = value else {
        return Ok(());
    };
    let record = row_record(alloc, v)?;
    match txn.write(desk, key, Some(record.as_slice())) {
        Ok(()) => Ok(()),
        Err(_) => Err(AllocError),
    }
}
