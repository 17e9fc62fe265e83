ghost use Rattle.std.specs.Prelude.{◌≡◌, ◌≢◌, ◌++◌, ◌<◌, ◌^◌, ℕ, IfOk};
ghost use Rattle.db_base.specs.Ids.{IsTree};
ghost use Rattle.db_base.specs.declared.names.QueueName.{QueueName};
ghost use Rattle.folder_names.specs.Names.{folder_text, place_text, updates_kind, IsQueue, IfNotOurs, IsNoUpdates};

use crate::fault::NameFault;
use crate::objects::{client_in, decoded, place};
use db_base::ids::{PageId, TreeId};
use db_base::names::QueueName;
use std::alloc::Global;

/// The queue of a tree or of a page, by these numbers; a tree's own queue stands under page 0.
fn numbered(tree: u8, page: u64) -> Result<QueueName, NameFault>
    ensures ok { IfOk result (λ queue. folder_text queue ≡ updates_kind ++ place_text tree page) }
    ensures none { IfNotOurs result (IsTree tree → ⊥) }
{
    match (TreeId::new(u64::from(tree)), PageId::new(page)) {
        (Ok(tree), Ok(page)) => Ok(QueueName::PagePu(tree, page)),
        (Ok(tree), Err(_)) => Ok(QueueName::TreePu(tree)),
        (Err(_), _) => Err(NameFault::NotOurs),
    }
}

/// The queue of a tree or of a page that a word spells.
fn updates_in(alloc: Global, word: &[u8]) -> Result<QueueName, NameFault>
    ensures ok { IfOk result (λ queue. folder_text queue ≡ updates_kind ++ word.now) }
    ensures none { IfNotOurs result (IsNoUpdates word.now) }
{
    match decoded(alloc, word) {
        Ok(bytes) => match place(bytes.as_slice()) {
            Some((tree, page)) => numbered(tree, page),
            None => Err(NameFault::NotOurs),
        },
        Err(fault) => Err(fault),
    }
}

/// The queue whose folder has this name; NotOurs exactly where no queue's folder has it.
pub fn queue_of(alloc: Global, text: &[u8]) -> Result<QueueName, NameFault>
    ensures ok { IfOk result (λ queue. text.now ≡ folder_text queue) }
    ensures none { IfNotOurs result ((queue : QueueName) → IsQueue queue → text.now ≢ folder_text queue) }
{
    match text {
        [b'a', b't', b'o', b'm', b'i', b'c', b'-', word @ ..] => match client_in(alloc, word) {
            Ok(client) => Ok(QueueName::Atomic(client)),
            Err(fault) => Err(fault),
        },
        [b'u', b'p', b'd', b'a', b't', b'e', b's', b'-', word @ ..] => updates_in(alloc, word),
        _ => Err(NameFault::NotOurs),
    }
}
