ghost use Rattle.std.specs.Prelude.{◌≡◌, IfOk};
ghost use Rattle.run_cursor.specs.Covered.{covered_ids, with_id, NoneBeyond};

use crate::run::RunFault;
use db_base::cursor::Cursor;
use db_base::ids::MsgId;
use log_codec::record::PuItem;
use std::alloc::Global;

/// Adds an id that is not there yet. One above the greatest of them is not looked for.
fn note(ids: &mut Vec<MsgId>, greatest: &mut u64, id: MsgId) -> Result<(), RunFault>
    requires { NoneBeyond ids.old.items greatest.old }
    ensures ids { IfOk result (λ _. ids.new.items ≡ with_id ids.old.items id) }
    ensures beyond { IfOk result (λ _. NoneBeyond ids.new.items greatest.new) }
{
    if *greatest < id.get() {
        ids.push(id)?;
        *greatest = id.get();
        return Ok(());
    }
    if !ids.as_slice().contains(&id) {
        ids.push(id)?;
    }
    Ok(())
}

/// The ids of the items whose numbers are at most the top, in order of receipt, each once.
pub fn covered(alloc: Global, top: &Cursor, items: &[PuItem]) -> Result<Vec<MsgId>, RunFault>
    ensures { IfOk result (λ ids. ids.items ≡ covered_ids top.now items.now) }
{
    let mut ids = Vec::new(alloc);
    let mut greatest = 0;
    let mut left = items;
    while let Some((x, rest)) = left.split_first() {
        if x.rec.number <= top.get(x.rec.client) {
            note(&mut ids, &mut greatest, x.id)?;
        }
        left = rest;
    }
    Ok(ids)
}
