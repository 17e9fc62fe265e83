//! Heads that are open with a committed entry of a tree.

ghost use Rattle.std.specs.Prelude.{◌≡◌, ℕ, ◌≤◌, ◌⊎◌, Some, None, IfOk, OnOk, IfErr};
ghost use Rattle.std.specs.List.{list_any};
ghost use Rattle.db_base.specs.Limits.{last_client};
ghost use Rattle.db_base.specs.declared.names.ObjName.TheVariants as object;
ghost use Rattle.db_base.specs.declared.names.Place.TheVariants as place;
ghost use Rattle.head_codec.specs.Spelling.{head_of, head_offset};
ghost use Rattle.world_audit.specs.Counts.{is_under_way, is_of, is_open_in, open_count, head_in};
ghost use Rattle.world_audit.specs.Look.{Looked, FailsDark};
ghost use Rattle.world_audit.specs.Stop.{IsHeadOrNone, SpellsNoHead, MayStop};
ghost use Rattle.world_audit.specs.Finding.{Shown, HeadsFound};

use crate::look::peek;
use cloud_trait::cloud::Bench;
use db_base::blob::Blob;
use db_base::ids::{ClientId, TreeId};
use db_base::names::{ObjName, Place};
use db_base::trouble::Trouble;
use head_codec::head::{Head, HeadFault, Phase};
use report_types::entry::Entry;
use std::alloc::Global;

/// The head that the bytes spell. Damaged where they spell none, and Memory.
pub fn head_of(alloc: Global, client: ClientId, bytes: &[u8]) -> Result<Head, Trouble>
    ensures ok { IfOk result (λ h. head_of bytes.now ≡ Some h) }
    ensures err { IfErr result
        (λ e. (e ≡ Trouble.Memory)
        ⊎ ((head_of bytes.now ≡ None)
        × (e ≡ Trouble.Damaged (place.Object (object.Head client)) (head_offset bytes.now)))) }
    ensures kinds { (tree : ℕ) → IfErr result (MayStop tree) }
{
    match Head::read(alloc, bytes) {
        Ok(head) => Ok(head),
        Err(HeadFault::NotHead { offset }) => Err(Trouble::Damaged {
            place: Place::Object(ObjName::Head(client)),
            offset,
        }),
        Err(HeadFault::Exhausted) => unreachable!(),
        Err(HeadFault::Memory) => Err(Trouble::Memory),
    }
}

/// Whether a commit is under way.
fn is_under_way(phase: Phase) -> bool
    ensures { result ≡ is_under_way phase }
{
    match phase {
        Phase::Settled => false,
        Phase::Open(_) => true,
    }
}

/// Whether an entry of the tree is of the head's transaction.
fn has_entry(head: &Head, client: ClientId, tree: TreeId, committed: &[Entry]) -> bool
    ensures { result ≡ list_any (is_of client tree head.now) committed.now }
{
    committed.iter().any(|entry| entry.client.get() == client.get()
        && entry.epoch == head.epoch
        && entry.txn == head.txn
        && entry.tree.get() == tree.get())
}

/// Whether the head is open, and its transaction has a committed entry of the tree.
fn is_open_in(head: &Head, client: ClientId, tree: TreeId, committed: &[Entry]) -> bool
    ensures { result ≡ is_open_in client tree committed.now head.now }
{
    is_under_way(head.phase) && has_entry(head, client, tree, committed)
}

/// 1 where a version of the client's head is open with a committed entry of the tree, else 0.
fn open_count(
    alloc: Global,
    client: ClientId,
    tree: TreeId,
    committed: &[Entry],
    bytes: &Option<Blob>,
) -> Result<u64, Trouble>
    ensures most { IfOk result (λ n. n ≤ 1) }
    ensures ok { IfOk result (λ n. n ≡ open_count client tree committed.now (head_in bytes.now)) }
    ensures read { OnOk result (IsHeadOrNone bytes.now) }
    ensures stopped { IfErr result (λ e. (e ≡ Trouble.Memory) ⊎ SpellsNoHead bytes.now client e) }
    ensures kinds { IfErr result (MayStop tree) }
{
    let Some(bytes) = bytes else {
        return Ok(0);
    };
    let head = head_of(alloc, client, bytes.as_slice())?;
    if is_open_in(&head, client, tree, committed) {
        Ok(1)
    } else {
        Ok(0)
    }
}

/// How many heads are open with a committed entry of the tree.
pub(crate) fn open_heads<C: Bench>(
    alloc: Global,
    cloud: &mut C,
    tree: TreeId,
    committed: &[Entry],
) -> Result<u64, Trouble>
    ensures looked { Looked (C.seen cloud.old) (C.seen cloud.new) }
    ensures failed { FailsDark result (C.seen cloud.old) (C.seen cloud.new) }
    ensures most { IfOk result (λ n. n ≤ last_client) }
    ensures found { Shown (C.seen cloud.old) object.Head (HeadsFound tree committed.now result) }
    ensures kinds { IfErr result (MayStop tree) }
{
    let mut heads = 0u64;
    for number in 0..64u64 {
        let Ok(client) = ClientId::new(number + 1) else {
            unreachable!();
        };
        let bytes = peek(cloud, ObjName::Head(client))?;
        let here = open_count(alloc, client, tree, committed, &bytes)?;
        heads += here;
    }
    Ok(heads)
}
