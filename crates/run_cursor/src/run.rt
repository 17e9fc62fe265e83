ghost use Rattle.std.specs.Prelude.{◌≡◌, IfOk};

use crate::chosen::{choose, choose_of};
use crate::covered::covered;
use crate::order::compare;
use crate::top::top_of;
use db_base::cursor::Cursor;
use db_base::ids::MsgId;
use log_codec::record::PuItem;
use std::alloc::{AllocError, AllocFailed, Global};
use std::marker::Model;

/// Why no run was taken.
#[derive(Clone, Copy, Debug, PartialEq, Eq)]
pub enum RunFault {
    /// Memory ran out.
    Memory,
}

impl From<AllocError> for RunFault {
    fn from(_error: AllocError) -> Self {
        RunFault::Memory
    }
}

impl<T: Drop> From<AllocFailed<T>> for RunFault {
    fn from(_error: AllocFailed<T>) -> Self {
        RunFault::Memory
    }
}

/// The records of a queue that are applied next, for each client the longest list of consecutive numbers
/// behind the cursor, in the order in which they are applied: by key, then client, then number.
#[derive(Debug)]
pub struct Run {
    items: Vec<PuItem>,
    top: Cursor,
}

impl Drop for Run {
    fn drop(self) {
        let Run { items: _, top: _ } = self;
    }
}

impl Model for Run {
    ghost use Rattle.log_codec.specs.Order.{IsOrdered};
    ghost use Rattle.run_cursor.specs.Run.{Taken};

    ghost Value = { Taken };

    ghost view = { λ r. record { items = r.items.items; top = r.top } };

    ghost invariant = { λ r. IsOrdered r.items.items };
}

impl Run {
    ghost use Rattle.log_codec.specs.Order.{IsOrdered};

    /// The items, in the order in which they are applied.
    pub fn items(&self) -> &[PuItem]
        ensures items { result.now ≡ self.now.items }
        ensures ordered { IsOrdered self.now.items }
    {
        self.items.as_slice()
    }

    /// For each client the last number of the run, or the cursor's.
    pub fn top(&self) -> &Cursor
        ensures { result.now ≡ self.now.top }
    {
        &self.top
    }
}

ghost use Rattle.run_cursor.specs.Covered.{covered_ids};
ghost use Rattle.run_cursor.specs.Run.{IsRun};

/// The run of a queue behind a cursor, among the received items. The one fault is want of memory.
pub fn take_run(alloc: Global, cursor: &Cursor, items: &[PuItem]) -> Result<Run, RunFault>
    ensures { IfOk result (λ run. IsRun cursor.now items.now run.items run.top) }
{
    let top = top_of(cursor, items)?;
    let mut kept = choose(alloc, cursor, &top, items)?;
    kept.sort_by(compare)?;
    Ok(Run { items: kept, top })
}

/// The same among items that it takes over, with the ids of those that its top covers, in order of receipt, each once.
pub fn take_received(
    alloc: Global,
    cursor: &Cursor,
    items: Vec<PuItem>,
) -> Result<(Run, Vec<MsgId>), RunFault>
    ensures run { IfOk result (λ taken. IsRun cursor.now items.items taken.0.items taken.0.top) }
    ensures covered { IfOk result (λ taken. taken.1.items ≡ covered_ids taken.0.top items.items) }
{
    let top = top_of(cursor, items.as_slice())?;
    let ids = covered(alloc, &top, items.as_slice())?;
    let mut kept = choose_of(alloc, cursor, &top, items)?;
    kept.sort_by(compare)?;
    Ok((Run { items: kept, top }, ids))
}
