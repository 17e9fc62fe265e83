ghost use Rattle.std.specs.Prelude.{◌≡◌, ◌++◌, All, OnOk, OnErr, IfOk};
ghost use Rattle.db_base.specs.Ids.{IsPage};
ghost use Rattle.db_base.specs.declared.names.ObjName.{ObjName};
ghost use Rattle.memory_cloud.specs.Maps.{versions_in, AddsVersion};
ghost use Rattle.memory_cloud.specs.Pages.{IsListed, page_at};

use crate::copies;
use crate::kept::Kept;
use db_base::ids::{PageId, TreeId};
use db_base::names::ObjName;
use std::alloc::{AllocError, Global};
use std::collections::BTreeMap;

/// The landed versions of each object, oldest first.
pub type Objects = BTreeMap<ObjName, Vec<Kept>>;

/// The versions of an object.
pub fn versions<'a>(objects: &'a Objects, name: &ObjName) -> &'a [Kept]
    ensures { result.now ≡ versions_in objects.now name.now }
{
    match objects.get(name) {
        Some(versions) => versions.as_slice(),
        None => &[],
    }
}

/// Adds a version at the end of an object's.
pub fn add_version(
    alloc: Global,
    objects: &mut Objects,
    name: &ObjName,
    version: Kept,
) -> Result<(), AllocError>
    ensures ok { AddsVersion result objects.old name.now version objects.new }
    ensures err { (q : ObjName) → OnErr result (versions_in objects.new q ≡ versions_in objects.old q) }
{
    if let Some(versions) = objects.get_mut(name) {
        versions.push(version)?;
        return Ok(());
    }
    let mut versions = Vec::new(alloc);
    versions.push(version)?;
    objects.insert(*name, versions)?;
    Ok(())
}

/// The pages of a tree whose newest version has bytes, in ascending order: one walk over all objects.
pub fn pages(alloc: Global, objects: &Objects, tree: TreeId) -> Result<Vec<PageId>, AllocError>
    ensures { IfOk result (λ v. IsListed objects.now tree v.items) }
{
    let mut pages = Vec::new(alloc);
    for (name, versions) in objects.iter() {
        push_page(&mut pages, tree, name, versions.as_slice())?;
    }
    Ok(pages)
}

// Adds an object, where it is a page of the tree and its newest version has bytes.
fn push_page(
    pages: &mut Vec<PageId>,
    tree: TreeId,
    name: &ObjName,
    versions: &[Kept],
) -> Result<(), AllocError>
    ensures added { OnOk result (pages.new.items ≡ pages.old.items ++ page_at tree name.now versions.now) }
    ensures pages { OnOk result (All IsPage (page_at tree name.now versions.now)) }
{
    if let ObjName::Page(of, page) = *name {
        if of.get() == tree.get() && copies::is_there(versions) {
            // Its number is read for its range: at least 1.
            let _number = page.get();
            pages.push(page)?;
        }
    }
    Ok(())
}
