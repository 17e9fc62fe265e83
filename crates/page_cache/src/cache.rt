ghost use Rattle.std.specs.Prelude.{◌≡◌, ◌↔◌, [], length, IfOk, IfErr, IfSome, IsTrue, is_some, Some, None, Ok};
ghost use Rattle.page_cache.specs.Cache.{IsCache, empty_cache, kept_at, served_at, placed, served, dropped, Did, accepts, accepts_none, accepts_no_leaf, accepts_leaf, accepts_read, accepts_version};
ghost use Rattle.page_cache.specs.Held.{leaf_at, inner_at, root_at};
ghost use Rattle.page_cache.specs.Spelled.{IsSpelled, version_read};
ghost use Rattle.cloud_trait.specs.Machine.{occasion_of};
ghost use Rattle.page_cache.specs.Fetched.{Fetched, Gets};

use crate::objects::Objects;
use crate::reading::{inner_of, known_version, leaf_of, root_of, version_of};
use crate::versions::Versions;
use cloud_trait::call::Call;
use cloud_trait::cloud::Cloud;
use cloud_trait::perform::perform;
use cloud_trait::who::Who;
use db_base::blob::Blob;
use db_base::ids::PageId;
use db_base::names::{ObjName, Place};
use db_base::trouble::Trouble;
use leaf_view::LeafView;
use node_codec::{InnerView, TreeView};
use std::alloc::Global;
use std::marker::Model;

/// The objects that a session keeps, at most 64, the newest accepted first; and apart from them the greatest
/// version served of every leaf, also of one that is no longer kept.
pub struct PageCache {
    objects: Objects,
    versions: Versions,
}

impl Drop for PageCache {
    fn drop(self) {
        let PageCache {
            objects: _,
            versions: _,
        } = self;
    }
}

impl Model for PageCache {
    ghost use Rattle.page_cache.specs.Cache.{Cache};

    ghost Value = { Cache };

    ghost view = { λ c. record { objects = c.objects; versions = c.versions.served.entries } };
}

impl PageCache {
    /// A cache that keeps nothing, of a session that was served nothing. Memory alone is refused.
    pub fn new(alloc: Global) -> Result<PageCache, Trouble>
        ensures ok { IfOk result (λ c. c ≡ empty_cache) }
        ensures memory { IfErr result (λ e. e ≡ Trouble.Memory) }
    {
        Ok(PageCache {
            objects: Objects::new(alloc)?,
            versions: Versions::new(alloc),
        })
    }

    /// Whether an object is kept, by its bytes or as absent. Takes no memory.
    pub fn kept(&self, name: ObjName) -> bool
        ensures { result ≡ is_some (kept_at self.now name) }
    {
        self.objects.get(&name).is_some()
    }

    /// Takes the answer of a get and gives its version: 0 of an absent root or page 1, which are kept as absent.
    /// An object that is no page is read as a root; a page as a leaf, or else as an inner node.
    /// Stale where a leaf is below the greatest version served, or a page is absent; Damaged where the bytes are
    /// in no spelling of their kind; Memory. A refusal changes nothing.
    pub fn accept(&mut self, name: ObjName, got: Option<Blob>, leaf: bool) -> Result<u64, Trouble>
        ensures { Did (accepts self.old name leaf got) self.old self.new result }
    {
        self.take(&name, got, leaf)
    }

    // Takes the answer of a get.
    fn take(&mut self, name: &ObjName, got: Option<Blob>, leaf: bool) -> Result<u64, Trouble>
        ensures { Did (accepts self.old name.now leaf got) self.old self.new result }
    {
        match got {
            Some(bytes) => self.take_bytes(name, bytes, leaf),
            None => self.take_none(name, leaf),
        }
    }

    // Keeps an object first, and gives its version.
    fn place(&mut self, name: &ObjName, bytes: Option<Blob>, version: u64) -> Result<u64, Trouble>
        requires { IsSpelled name.now bytes }
        ensures { Did (Ok (version, placed self.old name.now bytes)) self.old self.new result }
    {
        match self.objects.put(name, bytes) {
            Ok(()) => Ok(version),
            Err(trouble) => Err(trouble),
        }
    }

    // Keeps a leaf first, notes its version and gives it. Room for the version is made first, so that a refusal changes nothing.
    fn serve(&mut self, name: &ObjName, bytes: Blob, version: u64) -> Result<u64, Trouble>
        requires { IsSpelled name.now (Some bytes) }
        ensures { Did (Ok (version, served (placed self.old name.now (Some bytes)) name.now version)) self.old self.new result }
    {
        self.versions.make_room()?;
        self.objects.put(name, Some(bytes))?;
        self.versions.note(*name, version);
        Ok(version)
    }

    // Takes that a leaf is absent.
    fn take_no_leaf(&mut self, name: &ObjName, page: PageId) -> Result<u64, Trouble>
        requires { page ≡ 1 → IsSpelled name.now None }
        ensures { Did (accepts_no_leaf self.old name.now page (served_at self.old name.now)) self.old self.new result }
    {
        let least = self.versions.of(name);
        if page.get() == 1 && least == 0 {
            self.place(name, None, 0)
        } else {
            Err(Trouble::Stale {
                page,
                least: least.max(1),
                got: 0,
            })
        }
    }

    // Takes that an object is absent.
    fn take_none(&mut self, name: &ObjName, leaf: bool) -> Result<u64, Trouble>
        ensures { Did (accepts_none self.old name.now leaf) self.old self.new result }
    {
        match *name {
            ObjName::Page(_, page) => {
                if leaf {
                    self.take_no_leaf(name, page)
                } else {
                    Err(Trouble::Stale {
                        page,
                        least: 1,
                        got: 0,
                    })
                }
            }
            ObjName::Tree(_) => self.place(name, None, 0),
            ObjName::Head(_) => self.place(name, None, 0),
        }
    }

    // Takes the version of a leaf.
    fn take_leaf(
        &mut self,
        name: &ObjName,
        page: PageId,
        bytes: Blob,
        version: u64,
    ) -> Result<u64, Trouble>
        requires { IsSpelled name.now (Some bytes) }
        ensures { Did (accepts_leaf self.old name.now page bytes (served_at self.old name.now) version) self.old self.new result }
    {
        let least = self.versions.of(name);
        if version < least {
            Err(Trouble::Stale {
                page,
                least,
                got: version,
            })
        } else {
            self.serve(name, bytes, version)
        }
    }

    // Takes bytes that are in the spelling of their kind, with their version.
    fn take_version(
        &mut self,
        name: &ObjName,
        leaf: bool,
        bytes: Blob,
        version: u64,
    ) -> Result<u64, Trouble>
        requires { IsSpelled name.now (Some bytes) }
        ensures { Did (accepts_version self.old name.now leaf bytes version) self.old self.new result }
    {
        match *name {
            ObjName::Page(_, page) => {
                if leaf {
                    self.take_leaf(name, page, bytes, version)
                } else {
                    self.place(name, Some(bytes), version)
                }
            }
            ObjName::Tree(_) => self.place(name, Some(bytes), version),
            ObjName::Head(_) => self.place(name, Some(bytes), version),
        }
    }

    // The version in the bytes of an object, or the offset of their first fault. Bytes that are kept are known, and not read again.
    fn version_of(&self, name: &ObjName, leaf: bool, bytes: &[u8]) -> Result<u64, u64>
        ensures version { result ≡ version_read name.now leaf bytes.now }
        ensures spelled { IfOk result (λ _. IsSpelled name.now (Some bytes.now)) }
    {
        match self.known_version(name, leaf, bytes) {
            Some(version) => Ok(version),
            None => version_of(name, leaf, bytes),
        }
    }

    // The version in the bytes of an object, where they are those that are kept.
    fn known_version(&self, name: &ObjName, leaf: bool, bytes: &[u8]) -> Option<u64>
        ensures version { IfSome result (λ version. version_read name.now leaf bytes.now ≡ Ok version) }
        ensures spelled { IfSome result (λ _. IsSpelled name.now (Some bytes.now)) }
    {
        match self.objects.get(name) {
            Some(Some(kept)) if kept.as_slice() == bytes => known_version(name, leaf, bytes),
            _ => None,
        }
    }

    // Takes the bytes of an object.
    fn take_bytes(&mut self, name: &ObjName, bytes: Blob, leaf: bool) -> Result<u64, Trouble>
        ensures { Did (accepts_read self.old name.now leaf bytes (version_read name.now leaf bytes)) self.old self.new result }
    {
        match self.version_of(name, leaf, bytes.as_slice()) {
            Ok(version) => self.take_version(name, leaf, bytes, version),
            Err(offset) => Err(Trouble::Damaged {
                place: Place::Object(*name),
                offset,
            }),
        }
    }

    /// How many objects are kept, at most 64, each in the spelling of its kind. Takes no memory.
    pub fn len(&self) -> usize
        ensures len { result ≡ length self.now.objects }
        ensures whole { IsCache self.now }
    {
        self.objects.len()
    }

    /// Whether no object is kept. Takes no memory.
    pub fn is_empty(&self) -> bool
        ensures { IsTrue result ↔ (self.now.objects ≡ []) }
    {
        self.objects.len() == 0
    }

    /// The leaf that is kept at a page. Takes no memory.
    pub fn leaf(&self, name: ObjName) -> Option<LeafView<'_>>
        ensures { result ≡ leaf_at self.now name }
    {
        match name {
            ObjName::Page(_, _) => match self.objects.get(&name)? {
                Some(bytes) => leaf_of(bytes.as_slice()),
                None => Some(LeafView::empty()),
            },
            _ => None,
        }
    }

    /// The inner node that is kept at a page. Takes no memory.
    pub fn inner(&self, name: ObjName) -> Option<InnerView<'_>>
        ensures { result ≡ inner_at self.now name }
    {
        match name {
            ObjName::Page(_, _) => match self.objects.get(&name)? {
                Some(bytes) => inner_of(bytes.as_slice()),
                None => None,
            },
            _ => None,
        }
    }

    /// The root that is kept of a tree. Takes no memory.
    pub fn tree(&self, name: ObjName) -> Option<TreeView<'_>>
        ensures { result ≡ root_at self.now name }
    {
        match name {
            ObjName::Tree(_) => match self.objects.get(&name)? {
                Some(bytes) => Some(root_of(bytes.as_slice())),
                None => Some(TreeView::empty()),
            },
            _ => None,
        }
    }

    /// Forgets the bytes of an object, and not its version. Takes no memory.
    pub fn drop_kept(&mut self, name: ObjName)
        ensures { self.new ≡ dropped self.old name }
    {
        self.objects.remove(&name);
    }

    /// Forgets all bytes and versions. Takes no memory.
    #[inline(never)]
    pub fn clear(&mut self)
        ensures { self.new ≡ empty_cache }
    {
        self.objects.clear();
        self.versions.clear();
    }

    /// Gets an object and takes the answer as `accept` does. Failed besides.
    pub fn fetch<C: Cloud>(
        &mut self,
        cloud: &mut C,
        who: Who,
        name: ObjName,
        leaf: bool,
    ) -> Result<u64, Trouble>
        ensures { Fetched name leaf (occasion_of who (C.seen cloud.old) (C.seen cloud.new)) self.old self.new result }
    {
        match got_of(cloud, who, &name) {
            Ok(got) => self.take(&name, got, leaf),
            Err(trouble) => Err(trouble),
        }
    }
}

// Gets an object.
fn got_of<C: Cloud>(cloud: &mut C, who: Who, name: &ObjName) -> Result<Option<Blob>, Trouble>
    ensures { Gets who name.now (C.seen cloud.old) (C.seen cloud.new) result }
{
    perform(cloud, who, &Call::Get(*name)).got()
}
