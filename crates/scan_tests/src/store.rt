//! Tree 1 and its index in any cloud.

ghost use Rattle.std.specs.Prelude.{◌≤◌, IfOk};

use crate::objects::Objects;
use cloud_trait::cloud::Cloud;
use cloud_trait::grant::Grant;
use cloud_trait::lease::Lease;
use cloud_trait::who::Who;
use db_base::ids::{PageId, SessionNo, TreeId};
use db_base::names::{Lock, ObjName};
use std::test::Fail;

pub(crate) fn who() -> Result<Who, Fail> {
    Ok(Who::new(SessionNo::new(3)?, 7))
}

/// The tree, which has an index.
pub(crate) fn tree() -> Result<TreeId, Fail>
    ensures { IfOk result (λ tree. tree ≤ 8) }
{
    Ok(TreeId::new(1)?)
}

/// The tree of its index.
pub(crate) fn index() -> Result<TreeId, Fail> {
    Ok(TreeId::new(9)?)
}

/// An object of a tree by its number: 0 for the tree object, else a page.
fn object_of(tree: TreeId, number: u64) -> Result<ObjName, Fail> {
    if number == 0 {
        return Ok(ObjName::Tree(tree));
    }
    Ok(ObjName::Page(tree, PageId::new(number)?))
}

/// An object of the tree by its number.
pub(crate) fn object(number: u64) -> Result<ObjName, Fail> {
    object_of(tree()?, number)
}

fn take<C: Cloud>(cloud: &mut C) -> Result<Lease, Fail> {
    let lock = Lock::Page(tree()?, PageId::first());
    match cloud.take(who()?, lock, 10)? {
        Grant::Given(lease) => Ok(lease),
        Grant::Held(_) => Err(Fail::from("held")),
    }
}

fn put_under<C: Cloud>(
    cloud: &mut C,
    lease: &Lease,
    name: ObjName,
    bytes: &[u8],
) -> Result<(), Fail> {
    cloud.put_held(who()?, name, bytes, lease, None)?;
    Ok(())
}

fn put_object<C: Cloud>(cloud: &mut C, name: ObjName, bytes: &[u8]) -> Result<(), Fail> {
    let lease = take(cloud)?;
    put_under(cloud, &lease, name, bytes)?;
    cloud.release(who()?, lease)?;
    Ok(())
}

/// Puts an object by its number.
pub(crate) fn put<C: Cloud>(cloud: &mut C, number: u64, bytes: &[u8]) -> Result<(), Fail> {
    put_object(cloud, object(number)?, bytes)
}

/// Puts an object of the index by its number.
pub(crate) fn put_in_index<C: Cloud>(cloud: &mut C, number: u64, bytes: &[u8]) -> Result<(), Fail> {
    put_object(cloud, object_of(index()?, number)?, bytes)
}

/// Puts objects.
pub(crate) fn put_all<C: Cloud>(cloud: &mut C, objects: Objects<'_>) -> Result<(), Fail> {
    for (number, bytes) in objects {
        put(cloud, *number, bytes)?;
    }
    Ok(())
}
