//! The leaves of a tree, from the left.

ghost use Rattle.std.specs.Prelude.{◌≡◌, ℕ, [], ◌∷◌, ◌++◌, ◌⊎◌, ◌<◌, ◌^◌, length, map, List, Some, IfSome, IfOk, IfErr, OnOk};
ghost use Rattle.std.specs.List.{Contains};
ghost use Rattle.std.specs.Option.{option_copied};
ghost use Rattle.db_base.specs.Ids.{IsPage};
ghost use Rattle.db_base.specs.declared.names.ObjName.TheVariants.{Page};
ghost use Rattle.leaf_view.specs.Fits.{IsHigh};
ghost use Rattle.world_audit.specs.Look.{Looked, FailsDark};
ghost use Rattle.replay_meaning.specs.Chain.{IsReadAs, stored_of};
ghost use Rattle.world_audit.specs.Walk.{Adds};
ghost use Rattle.world_audit.specs.Stop.{StopsWalk, MayStop, Passes};
ghost use Rattle.world_audit.specs.Finding.{Shown, LeavesFound};

use crate::look::peek;
use cloud_trait::cloud::Bench;
use db_base::blob::Blob;
use db_base::ids::{PageId, TreeId};
use db_base::names::{ObjName, Place};
use db_base::trouble::Trouble;
use indexmap::IndexSet;
use leaf_view::{LeafView, Records};
use report_types::stored::Stored;
use report_types::stored_list::StoredList;
use std::alloc::Global;

/// The leaf that the newest version of a page spells.
fn leaf_at<'a>(tree: TreeId, page: PageId, bytes: &'a Option<Blob>) -> Result<LeafView<'a>, Trouble>
    ensures read { IsReadAs tree page bytes.now result }
    ensures kinds { IfErr result (MayStop tree) }
{
    match bytes {
        Some(bytes) => match LeafView::read(bytes.as_slice()) {
            Ok(leaf) => Ok(leaf),
            Err(fault) => Err(Trouble::Damaged {
                place: Place::Object(ObjName::Page(tree, page)),
                offset: fault.offset,
            }),
        },
        None => {
            if page.get() == 1 {
                Ok(LeafView::empty())
            } else {
                Err(Trouble::Absent { page })
            }
        }
    }
}

/// A copy of the bytes. Fails for memory alone.
fn copy_of(alloc: Global, bytes: &[u8]) -> Result<Blob, Trouble>
    ensures ok { IfOk result (λ b. b ≡ bytes.now) }
    ensures memory { IfErr result (λ e. e ≡ Trouble.Memory) }
{
    match Blob::copy_of(alloc, bytes) {
        Ok(copy) => Ok(copy),
        Err(_) => Err(Trouble::Memory),
    }
}

/// Refuses a low key that is not the one that led to the page.
fn check_low(alloc: Global, page: PageId, expected: &[u8], low: &[u8]) -> Result<(), Trouble>
    ensures ok { OnOk result (expected.now ≡ low.now) }
    ensures err { IfErr result (λ e. (e ≡ Trouble.Memory) ⊎ ((e ≡ Trouble.BadFence page expected.now low.now) × (expected.now ≡ low.now → ⊥))) }
    ensures kinds { (tree : ℕ) → IfErr result (MayStop tree) }
{
    if expected == low {
        return Ok(());
    }
    Err(Trouble::BadFence {
        page,
        expected: copy_of(alloc, expected)?,
        found: copy_of(alloc, low)?,
    })
}

/// A copy of the bytes, where there are some. Fails for memory alone.
fn copy_of_some(alloc: Global, bytes: Option<&[u8]>) -> Result<Option<Blob>, Trouble>
    ensures ok { IfOk result (λ b. b ≡ option_copied bytes.entry) }
    ensures memory { IfErr result (λ e. e ≡ Trouble.Memory) }
{
    match bytes {
        Some(bytes) => Ok(Some(copy_of(alloc, bytes)?)),
        None => Ok(None),
    }
}

/// Adds a record. Fails for memory alone.
fn add_record(
    alloc: Global,
    contents: &mut StoredList,
    key: &[u8],
    payload: &[u8],
    attr: Option<&[u8]>,
) -> Result<(), Trouble>
    ensures ok { OnOk result (contents.new ≡ contents.old ++ (record { key = key.now; payload = payload.now; attr = option_copied attr.entry }) ∷ []) }
    ensures memory { IfErr result (λ e. e ≡ Trouble.Memory) }
{
    let stored = Stored {
        key: copy_of(alloc, key)?,
        payload: copy_of(alloc, payload)?,
        attr: copy_of_some(alloc, attr)?,
    };
    match contents.push(stored) {
        Ok(()) => Ok(()),
        Err(_) => Err(Trouble::Memory),
    }
}

/// Adds records in their order. Fails for memory alone.
fn add_records(
    alloc: Global,
    contents: &mut StoredList,
    records: Records<'_>,
) -> Result<(), Trouble>
    ensures ok { OnOk result (contents.new ≡ contents.old ++ map stored_of records.entry) }
    ensures memory { IfErr result (λ e. e ≡ Trouble.Memory) }
{
    let mut left = records;
    while let Some(((key, payload, attr), rest)) = left.split() {
        add_record(alloc, contents, key, payload, attr)?;
        left = rest;
    }
    Ok(())
}

/// What the walk knows of the page that it comes to next.
#[derive(Drop)]
struct Walk {
    // the low key that it must have
    low: Blob,
    contents: StoredList,
}

/// Notes the page as visited: Loop where it was, and Memory.
fn note_visit(visited: &mut IndexSet<u64>, page: PageId) -> Result<(), Trouble>
    ensures page { OnOk result (IsPage page) }
    ensures noted { OnOk result (visited.new.keys ≡ visited.old.keys ++ page ∷ []) }
    ensures first { OnOk result (Contains visited.old.keys page → ⊥) }
    ensures few { OnOk result (length visited.old.keys < 2 ^ 63) }
    ensures err { IfErr result (λ e. (e ≡ Trouble.Memory) ⊎ ((e ≡ Trouble.Loop page) × Contains visited.old.keys page)) }
    ensures kinds { (tree : ℕ) → IfErr result (MayStop tree) }
{
    let _few = visited.len();
    match visited.insert(page.get()) {
        Ok(true) => Ok(()),
        Ok(false) => Err(Trouble::Loop { page }),
        Err(_) => Err(Trouble::Memory),
    }
}

/// The low key of the page right of a leaf, empty where there is none. Fails for memory alone.
fn low_behind(alloc: Global, leaf: &LeafView<'_>) -> Result<Blob, Trouble>
    ensures ok { IfOk result (λ b. IsHigh leaf.now.low leaf.now.right leaf.now.high × IfSome leaf.now.high (λ h. b ≡ h)) }
    ensures memory { IfErr result (λ e. e ≡ Trouble.Memory) }
{
    match leaf.high() {
        Some(high) => copy_of(alloc, high),
        None => Ok(Blob::new(alloc)),
    }
}

/// Adds the records of the leaf of a page, and says which page is the next.
fn add_leaf(
    alloc: Global,
    tree: TreeId,
    page: PageId,
    bytes: &Option<Blob>,
    walk: &mut Walk,
) -> Result<Option<PageId>, Trouble>
    ensures ok { IfOk result (λ next. Adds bytes.now tree page walk.old.contents walk.new.contents next) }
    ensures passes { IfOk result (λ next. Passes bytes.now tree page walk.old.low walk.new.low next) }
    ensures stopped { (pages : List ℕ) → IfErr result
        (λ e. (e ≡ Trouble.Memory) ⊎ StopsWalk tree pages page walk.old.low bytes.now e) }
    ensures failed { IfErr result (λ e. e ≡ Trouble.Failed → ⊥) }
    ensures kinds { IfErr result (MayStop tree) }
{
    let leaf = leaf_at(tree, page, bytes)?;
    check_low(alloc, page, walk.low.as_slice(), leaf.low())?;
    add_records(alloc, &mut walk.contents, leaf.records())?;
    walk.low = low_behind(alloc, &leaf)?;
    Ok(leaf.right())
}

/// The records of the leaves of a tree, in their order: from page 1 along right pages. Absent, Damaged, BadFence and
/// Loop where they are no chain, Failed where a look failed, and Memory. No page is looked at twice, and a step does not
/// grow with the number of leaves.
pub fn contents<C: Bench>(alloc: Global, cloud: &mut C, tree: TreeId) -> Result<StoredList, Trouble>
    ensures looked { Looked (C.seen cloud.old) (C.seen cloud.new) }
    ensures failed { FailsDark result (C.seen cloud.old) (C.seen cloud.new) }
    ensures found { Shown (C.seen cloud.old) (Page tree) (LeavesFound tree result) }
    ensures kinds { IfErr result (MayStop tree) }
{
    let mut page = PageId::first();
    let mut visited = IndexSet::new(alloc);
    let mut walk = Walk {
        low: Blob::new(alloc),
        contents: StoredList::new(alloc),
    };
    loop {
        // Asked before the look, which may fail.
        note_visit(&mut visited, page)?;
        let bytes = peek(cloud, ObjName::Page(tree, page))?;
        match add_leaf(alloc, tree, page, &bytes, &mut walk)? {
            Some(next) => page = next,
            None => return Ok(walk.contents),
        }
    }
}
