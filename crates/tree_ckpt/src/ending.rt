//! Deletions, and the leases given back.

ghost use Rattle.std.specs.Prelude.{◌≡◌, [], ◌∷◌};
ghost use Rattle.ckpt_parts.specs.Leasing.{claims_of, newest_lease};
ghost use Rattle.tree_ckpt.specs.Moves.{MovesOn, deleting, deleted_by, released_by};

use crate::moved::Moved;
use crate::work::{Held, Work, one_lease};
use ckpt_parts::Leases;
use cloud_trait::turn::CkptAnswer;
use db_base::trouble::Trouble;

/// Deletes the next message next, or gives the lease back where none is left.
pub(crate) fn delete_next(held: Held, applied: u64) -> Moved
    ensures { MovesOn (deleting held applied) (held.lease ∷ []) result }
{
    match held.deletions.next() {
        Some(_) => Moved::goes(Work::Deleting(held, applied)),
        None => {
            let Held { lease, deletions } = held;
            Moved::goes(Work::Releasing(
                one_lease(lease),
                Ok(CkptAnswer {
                    applied,
                    deleted: deletions.deleted(),
                    left: deletions.left(),
                }),
            ))
        }
    }
}

/// A deletion went, or it failed.
pub(crate) fn deleted(held: Held, applied: u64, done: Result<(), Trouble>) -> Moved
    ensures { MovesOn (deleted_by held applied done) (held.lease ∷ []) result }
{
    let mut held = held;
    held.deletions.note(done.is_ok());
    delete_next(held, applied)
}

/// The next lease is given back next, or the checkpoint ends.
pub(crate) fn released(held: Leases, end: Result<CkptAnswer, Trouble>) -> Moved
    ensures { MovesOn (released_by held end (newest_lease held)) (claims_of held) result }
{
    match held.newest() {
        Some(_) => Moved::goes(Work::Releasing(held, end)),
        None => Moved::finished(end),
    }
}
