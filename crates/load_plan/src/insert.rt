//! The inserts of the records of a dump.

ghost use Rattle.std.specs.Prelude.{◌≡◌, ◌≤◌, ◌^◌, length, MatchOption, IfOk};
ghost use Rattle.load_plan.specs.Events.{insert_of, records_of};

use db_base::blob::Blob;
use dump_text::dump::Dump;
use event_text::event::Event;
use report_types::stored::Stored;
use std::alloc::{AllocError, Global};

/// The insert of a record of a tree, by session 1.
pub fn insert_of(alloc: Global, tree: u64, stored: &Stored) -> Result<Event, AllocError>
    ensures { IfOk result (λ event. event ≡ insert_of (record { tree = tree; stored = stored.now })) }
{
    let key = Blob::copy_of(alloc, stored.key.as_slice())?;
    let payload = Blob::copy_of(alloc, stored.payload.as_slice())?;
    let attr = match &stored.attr {
        Some(attr) => Some(Blob::copy_of(alloc, attr.as_slice())?),
        None => None,
    };
    Ok(Event::Insert {
        session: 1,
        tree,
        key,
        payload,
        attr,
    })
}

/// How many records a dump has; none exactly where 64 bits have no room for the number.
pub fn count_records(dump: &Dump) -> Option<u64>
    ensures { MatchOption result (2 ^ 64 ≤ length (records_of dump.now.trees))
        (λ n. n ≡ length (records_of dump.now.trees)) }
{
    let mut count: u64 = 0;
    let mut left = dump.trees.as_slice();
    while let Some((tree, behind)) = left.split_first() {
        count = count.checked_add(tree.records.len() as u64)?;
        left = behind;
    }
    Some(count)
}
