ghost use Rattle.std.specs.Prelude.{◌≡◌, ◌≢◌, ◌++◌, ℕ, List, IfOk, bytes_eq, length, min, MatchOption};
ghost use Rattle.cloud_trait.specs.State.{greatest};

use crate::common::{common_back, common_front, end_of};
use db_base::blob::Blob;
use std::alloc::{AllocError, Global};
use std::marker::Model;
use std::rc::Rc;

/// Bytes that share what they have in common with a base, seen as the list of them: a front of the base, a middle of their own, a back of the
/// base, and an end of their own. A base is whole, so what is read is never more than one step away.
pub struct Shared {
    base: Rc<Blob>,
    // How many bytes of the base are the front, and from where on the base is the back.
    front: usize,
    back: usize,
    // The middle and the end, and how many of these bytes are the middle.
    own: Blob,
    split: usize,
    // How many bytes those own that share the base, up to this one.
    spent: usize,
}

impl Model for Shared {
    ghost use Rattle.std.specs.Prelude.{List, ℕ, ◌≤◌, ◌++◌, length, take, drop};

    ghost Value = { List ℕ };

    ghost view = { λ s. take s.front s.base.value ++ (take s.split s.own ++ (drop s.back s.base.value ++ drop s.split s.own)) };

    ghost invariant = { λ s. (s.front ≤ length s.base.value) × (s.back ≤ length s.base.value) × (s.split ≤ length s.own) };
}

impl Drop for Shared {
    fn drop(self) {
        let Shared {
            base: _,
            front: _,
            back: _,
            own: _,
            split: _,
            spent: _,
        } = self;
    }
}

impl Shared {
    /// A copy of bytes, which is a base but for their last one: a list grows before the byte that ends it.
    pub fn whole(alloc: Global, bytes: &[u8]) -> Result<Shared, AllocError>
        ensures { IfOk result (λ s. s ≡ bytes.now) }
    {
        let (front, last) = bytes.split_at(bytes.len().saturating_sub(1));
        let base = Rc::new(alloc, Blob::copy_of(alloc, front)?)?;
        Ok(Shared {
            base,
            front: front.len(),
            back: front.len(),
            own: Blob::copy_of(alloc, last)?,
            split: 0,
            spent: 0,
        })
    }

    /// A copy of bytes that follow these: they share the base of these, or are a base, where those that share this one would own as much as they have.
    pub fn next(&self, alloc: Global, bytes: &[u8]) -> Result<Shared, AllocError>
        ensures { IfOk result (λ s. s ≡ bytes.now) }
    {
        let base = self.base.as_slice();
        let front = common_front(base, bytes);
        let end = end_of(base, bytes, self.end_of_base()).max(front);
        let (_, rest) = bytes.split_at(front);
        let (middle, behind) = rest.split_at(end - front);
        let count = common_back(base, middle);
        let split = middle.len() - count;
        let spent = self
            .spent
            .saturating_add(split)
            .saturating_add(behind.len());
        if spent >= bytes.len() {
            return Shared::whole(alloc, bytes);
        }
        Ok(Shared {
            base: self.base.clone()?,
            front,
            back: base.len() - count,
            own: joined(alloc, &middle[..split], behind)?,
            split,
            spent,
        })
    }

    // Where the base ends in these bytes.
    fn end_of_base(&self) -> usize {
        let back = self.base.len() - self.back;
        self.front.saturating_add(self.split).saturating_add(back)
    }

    /// A copy of the bytes.
    #[inline(never)]
    pub fn copy(&self, alloc: Global) -> Result<Blob, AllocError>
        ensures { IfOk result (λ b. b ≡ self.now) }
    {
        let base = self.base.as_slice();
        let own = self.own.as_slice();
        let mut bytes = Vec::with_capacity(alloc, self.len())?;
        bytes.extend_from_slice(&base[..self.front])?;
        bytes.extend_from_slice(&own[..self.split])?;
        bytes.extend_from_slice(&base[self.back..])?;
        bytes.extend_from_slice(&own[self.split..])?;
        Ok(Blob::of(bytes))
    }

    // How many they are.
    fn len(&self) -> usize
        ensures { result ≡ min (length self.now) greatest }
    {
        let back = self.base.len() - self.back;
        self.front
            .saturating_add(self.own.len())
            .saturating_add(back)
    }

    /// Whether they are these bytes: as many, and part by part the same. Takes no memory.
    pub fn is(&self, bytes: &[u8]) -> bool
        ensures { result ≡ bytes_eq self.now bytes.now }
    {
        if self.len() != bytes.len() {
            return false;
        }
        self.is_by_parts(bytes)
    }

    // Whether they are these bytes, part by part.
    fn is_by_parts(&self, bytes: &[u8]) -> bool
        ensures { result ≡ bytes_eq self.now bytes.now }
    {
        let base = self.base.as_slice();
        let own = self.own.as_slice();
        let Some(rest) = behind(bytes, &base[..self.front]) else {
            return false;
        };
        let Some(rest) = behind(rest, &own[..self.split]) else {
            return false;
        };
        let Some(rest) = behind(rest, &base[self.back..]) else {
            return false;
        };
        &own[self.split..] == rest
    }
}

// Two slices in one.
fn joined(alloc: Global, first: &[u8], second: &[u8]) -> Result<Blob, AllocError>
    ensures { IfOk result (λ b. b ≡ first.now ++ second.now) }
{
    let mut bytes = Vec::with_capacity(alloc, first.len().saturating_add(second.len()))?;
    bytes.extend_from_slice(first)?;
    bytes.extend_from_slice(second)?;
    Ok(Blob::of(bytes))
}

// What stands behind a front, where there is that front.
fn behind<'a>(bytes: &'a [u8], front: &[u8]) -> Option<&'a [u8]>
    ensures { MatchOption result ((rest : List ℕ) → bytes.now ≢ front.now ++ rest) (λ rest. bytes.now ≡ front.now ++ rest.now) }
{
    bytes.strip_prefix(front)
}
