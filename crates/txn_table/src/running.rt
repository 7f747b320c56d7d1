//! The running transactions, the oldest Begin first.
ghost use Rattle.std.specs.Prelude.{◌≡◌, [], ◌∷◌, ◌++◌, length, option_map, MatchOption, OnOk, OnErr, IsOk, IsErrOf, is_some};
ghost use Rattle.log_history.specs.Transactions.{lookup, without, with_write, unless_new, unless_open};
ghost use Rattle.txn_table.specs.Table.{patch_of, open_of, table_in, fault_of, IsAbsent, IsPlaceOf};

use crate::{Change, OrderFault};
use std::alloc::{AllocError, Global};

/// The most transactions that may be open.
const MOST_OPEN: usize = 64;

/// A transaction that began and hasn't ended.
#[derive(Drop)]
pub(crate) struct Running {
    pub txn: u32,
    /// The position of its Begin.
    pub first: u64,
    /// Its Writes in order; their Commit isn't known yet.
    pub changes: Vec<Change>,
}

/// Where a transaction stands.
fn place(running: &[Running], txn: u32) -> Option<usize>
    ensures { MatchOption result (IsAbsent txn running.now) (IsPlaceOf txn running.now) }
{
    running.iter().position(|r| r.txn == txn)
}

/// Whether a transaction runs.
fn is_open(running: &[Running], txn: u32) -> bool
    ensures { result ≡ is_some (lookup txn (table_in running.now)) }
{
    place(running, txn).is_some()
}

/// Refuses a Begin of a transaction that runs, and one behind 64 that do.
pub(crate) fn may_begin(running: &[Running], txn: u32) -> Result<(), OrderFault>
    ensures { MatchOption (unless_new (lookup txn (table_in running.now)) (length (table_in running.now))) (IsOk result) (λ r. IsErrOf result (fault_of r)) }
{
    if is_open(running, txn) {
        return Err(OrderFault::AlreadyOpen);
    }
    if running.len() >= MOST_OPEN {
        return Err(OrderFault::TooManyOpen);
    }
    Ok(())
}

/// Refuses a Write, Commit or Abort of a transaction that doesn't run.
pub(crate) fn may_go_on(running: &[Running], txn: u32) -> Result<(), OrderFault>
    ensures { MatchOption (unless_open (lookup txn (table_in running.now))) (IsOk result) (λ r. IsErrOf result (fault_of r)) }
{
    if is_open(running, txn) {
        Ok(())
    } else {
        Err(OrderFault::NotOpen)
    }
}

/// A transaction begins behind the others.
pub(crate) fn begin(
    running: &mut Vec<Running>,
    alloc: Global,
    txn: u32,
    first: u64,
) -> Result<(), AllocError>
    ensures ok { OnOk result (table_in running.new.items ≡ table_in running.old.items ++ record { txn = txn; first = first; patches = [] } ∷ []) }
    ensures err { OnErr result (running.new.items ≡ running.old.items) }
{
    running.push(Running {
        txn,
        first,
        changes: Vec::new(alloc),
    })?;
    Ok(())
}

/// A transaction writes.
pub(crate) fn write(running: &mut Vec<Running>, txn: u32, change: Change) -> Result<(), AllocError>
    ensures ok { OnOk result (table_in running.new.items ≡ with_write txn (patch_of change) (table_in running.old.items)) }
    ensures err { OnErr result (table_in running.new.items ≡ table_in running.old.items) }
{
    let Some(i) = place(running.as_slice(), txn) else {
        return Ok(());
    };
    let one = &mut running[i];
    one.changes.push(change)?;
    Ok(())
}

/// Takes a transaction out.
pub(crate) fn take(running: &mut Vec<Running>, txn: u32) -> Option<Running>
    ensures taken { option_map open_of result ≡ lookup txn (table_in running.old.items) }
    ensures rest { table_in running.new.items ≡ without txn (table_in running.old.items) }
{
    let i = place(running.as_slice(), txn)?;
    Some(running.remove(i))
}
