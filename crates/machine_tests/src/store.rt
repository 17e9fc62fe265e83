//! Tree 1, and what else tests put into any cloud.

use cloud_trait::cloud::Cloud;
use cloud_trait::grant::Grant;
use cloud_trait::lease::Lease;
use cloud_trait::who::Who;
use db_base::ids::{PageId, SessionNo, TreeId};
use db_base::names::{Lock, ObjName, QueueName};
use std::test::Fail;

pub(crate) fn who() -> Result<Who, Fail> {
    Ok(Who::new(SessionNo::new(3)?, 7))
}

pub(crate) fn tree() -> Result<TreeId, Fail> {
    Ok(TreeId::new(1)?)
}

pub(crate) fn page(number: u64) -> Result<PageId, Fail> {
    Ok(PageId::new(number)?)
}

/// A lock by its number: 0 for the tree's, else a page's.
pub(crate) fn lock(number: u64) -> Result<Lock, Fail> {
    if number == 0 {
        return Ok(Lock::Tree(tree()?));
    }
    Ok(Lock::Page(tree()?, page(number)?))
}

/// An object by its number: 0 for the tree object, else a page.
pub(crate) fn object(number: u64) -> Result<ObjName, Fail> {
    if number == 0 {
        return Ok(ObjName::Tree(tree()?));
    }
    Ok(ObjName::Page(tree()?, page(number)?))
}

/// A queue by its number: 0 for the tree's, else a page's.
pub(crate) fn queue(number: u64) -> Result<QueueName, Fail> {
    if number == 0 {
        return Ok(QueueName::TreePu(tree()?));
    }
    Ok(QueueName::PagePu(tree()?, page(number)?))
}

/// Takes a lock for so many ticks.
pub(crate) fn take<C: Cloud>(cloud: &mut C, lock: Lock, ticks: u64) -> Result<Lease, Fail> {
    match cloud.take(who()?, lock, ticks)? {
        Grant::Given(lease) => Ok(lease),
        Grant::Held(_) => Err(Fail::from("held")),
    }
}

fn put_under<C: Cloud>(
    cloud: &mut C,
    lease: &Lease,
    name: ObjName,
    bytes: &[u8],
) -> Result<(), Fail> {
    cloud.put_held(who()?, name, bytes, lease, None)?;
    Ok(())
}

/// Puts an object under its lock.
pub(crate) fn put<C: Cloud>(
    cloud: &mut C,
    lock: Lock,
    name: ObjName,
    bytes: &[u8],
) -> Result<(), Fail> {
    let lease = take(cloud, lock, 9)?;
    put_under(cloud, &lease, name, bytes)?;
    cloud.release(who()?, lease)?;
    Ok(())
}

/// Puts an object of the tree by its number.
pub(crate) fn put_numbered<C: Cloud>(cloud: &mut C, number: u64, bytes: &[u8]) -> Result<(), Fail> {
    put(cloud, lock(number)?, object(number)?, bytes)
}

/// Sends bytes to a queue.
pub(crate) fn send<C: Cloud>(cloud: &mut C, queue: QueueName, bytes: &[u8]) -> Result<(), Fail> {
    let _id = cloud.send(who()?, queue, bytes)?;
    Ok(())
}
