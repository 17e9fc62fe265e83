ghost use Rattle.std.specs.Prelude.{◌≡◌, ◌++◌, ◌∷◌, IfOk, if◌then◌else◌};
ghost use Rattle.recover_run.specs.Ids.{has_id, new_ids, has_some};

use db_base::ids::MsgId;
use std::alloc::AllocError;

/// Whether an id is among those.
fn has(ids: &[MsgId], id: MsgId) -> bool
    ensures { result ≡ has_id ids.now id }
{
    ids.iter().any(|other| other.get() == id.get())
}

/// Adds the ids that are not there yet, each once, and answers whether there was one.
pub(crate) fn add_new(known: &mut Vec<MsgId>, ids: &[MsgId]) -> Result<bool, AllocError>
    ensures some { IfOk result (λ some. some ≡ has_some (new_ids known.old.items ids.now)) }
    ensures all { IfOk result (λ _. known.new.items ≡ known.old.items ++ new_ids known.old.items ids.now) }
{
    let mut some = false;
    let mut left = ids;
    while let Some((id, rest)) = left.split_first() {
        if !has(known.as_slice(), *id) {
            known.push(*id)?;
            some = true;
        }
        left = rest;
    }
    Ok(some)
}
