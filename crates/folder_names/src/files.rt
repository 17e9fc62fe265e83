ghost use Rattle.std.specs.Prelude.{◌≡◌, ◌++◌, ◌∷◌, ◌<◌, [], IfOk, IfErr};
ghost use Rattle.std.specs.Int.{w64, to_be_bytes};
ghost use Rattle.words.specs.Word.{hexadecimal};
ghost use Rattle.folder_names.specs.Names.{place_text, file_text, folder_text, lock_text};

use crate::fault::NameFault;
use db_base::ids::TreeId;
use db_base::names::{Lock, ObjName, QueueName};
use db_base::text::Text;
use std::alloc::Global;
use words::bytes::hexadecimal;

/// A kind, and bytes behind it.
fn named(alloc: Global, kind: &str, bytes: &[u8]) -> Result<Text, NameFault>
    ensures ok { IfOk result (λ text. text ≡ kind.now ++ hexadecimal bytes.now) }
    ensures memory { IfErr result (λ e. e ≡ NameFault.Memory) }
{
    let mut text = String::from_str(alloc, kind)?;
    let numbers = hexadecimal(alloc, bytes)?;
    text.push_str(numbers.as_str())?;
    match Text::new(alloc, text.as_str()) {
        Ok(text) => Ok(text),
        Err(_) => Err(NameFault::Memory),
    }
}

/// A kind, and a page of a tree behind it.
#[tactic(auto, unfolding(crate::specs::Names::place_bytes))]
fn placed(alloc: Global, kind: &str, tree: TreeId, page: u64) -> Result<Text, NameFault>
    ensures ok { IfOk result (λ text. text ≡ kind.now ++ place_text tree page) }
    ensures memory { IfErr result (λ e. e ≡ NameFault.Memory) }
{
    let mut bytes = Vec::new(alloc);
    bytes.push(tree.get() as u8)?;
    bytes.extend_from_slice(&page.to_be_bytes())?;
    named(alloc, kind, bytes.as_slice())
}

/// The name of an object's file, as `head-03`, `tree-01` and `page-010000000000000005`. Refused for memory alone.
pub fn file_of(alloc: Global, name: ObjName) -> Result<Text, NameFault>
    ensures ok { IfOk result (λ text. text ≡ file_text name) }
    ensures memory { IfErr result (λ e. e ≡ NameFault.Memory) }
{
    match name {
        ObjName::Head(client) => named(alloc, "head-", &[client.get() as u8]),
        ObjName::Tree(tree) => named(alloc, "tree-", &[tree.get() as u8]),
        ObjName::Page(tree, page) => placed(alloc, "page-", tree, page.get()),
    }
}

/// The name of a queue's folder, as `atomic-03` and `updates-010000000000000000`; a tree's own queue stands under
/// page 0. Refused for memory alone.
pub fn folder_of(alloc: Global, queue: QueueName) -> Result<Text, NameFault>
    ensures ok { IfOk result (λ text. text ≡ folder_text queue) }
    ensures memory { IfErr result (λ e. e ≡ NameFault.Memory) }
{
    match queue {
        QueueName::Atomic(client) => named(alloc, "atomic-", &[client.get() as u8]),
        QueueName::TreePu(tree) => placed(alloc, "updates-", tree, 0),
        QueueName::PagePu(tree, page) => placed(alloc, "updates-", tree, page.get()),
    }
}

/// The name of a lock's file: that of the object that it guards. Refused for memory alone.
pub fn lock_of(alloc: Global, lock: Lock) -> Result<Text, NameFault>
    ensures ok { IfOk result (λ text. text ≡ lock_text lock) }
    ensures memory { IfErr result (λ e. e ≡ NameFault.Memory) }
{
    match lock {
        Lock::Client(client) => file_of(alloc, ObjName::Head(client)),
        Lock::Tree(tree) => file_of(alloc, ObjName::Tree(tree)),
        Lock::Page(tree, page) => file_of(alloc, ObjName::Page(tree, page)),
    }
}
