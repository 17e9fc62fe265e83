//! A leaf that owns its bytes.

use db_base::blob::Blob;
use db_base::pair::EditFault;
use leaf_view::LeafView;
use std::alloc::Global;
use std::marker::Model;

/// A leaf that owns the bytes that spell it, in format 2: the one in which leaves are written.
pub struct LeafBuf {
    bytes: Vec<u8>,
    // How many records it has, so that they are counted once.
    count: usize,
}

impl Drop for LeafBuf {
    fn drop(self) {
        let LeafBuf { bytes: _, count: _ } = self;
    }
}

impl Model for LeafBuf {
    ghost use Rattle.leaf_view.specs.Leaf.{Leaf};
    ghost use Rattle.leaf_edit.specs.Buffer.{leaf_in, IsBuffer};

    ghost Value = { Leaf };

    ghost view = { λ b. leaf_in b.bytes.items };

    ghost invariant = { λ b. IsBuffer b.bytes.items b.count };
}

impl LeafBuf {
    ghost use Rattle.std.specs.Prelude.{◌≡◌, length, IfOk, IfErr};
    ghost use Rattle.leaf_view.specs.Leaf.{IsLeaf};
    ghost use Rattle.leaf_view.specs.Fits.{IsVersion};
    ghost use Rattle.leaf_edit.specs.Buffer.{leaf_in, IsWritten};
    ghost use Rattle.db_base.specs.declared.pair.EditFault.TheVariants.{Memory};

    /// The leaf of bytes that spell one in format 2.
    pub(crate) fn of(bytes: Vec<u8>) -> LeafBuf
        requires { IsWritten bytes.items }
        ensures { result ≡ leaf_in bytes.items }
    {
        let count = LeafView::known(&bytes).records().len();
        LeafBuf { bytes, count }
    }

    /// The leaf, borrowed.
    pub fn view(&self) -> LeafView<'_>
        ensures view { result ≡ self.now }
        ensures format { self.now.format ≡ 2 }
        ensures version { IsVersion self.now.version }
    {
        LeafView::known(&self.bytes)
    }

    /// How many records it has.
    pub fn len(&self) -> usize
        ensures { result ≡ length self.now.records }
    {
        self.count
    }

    /// A copy of its spelling. Refused for memory alone.
    pub fn write(&self, alloc: Global) -> Result<Blob, EditFault>
        ensures written { IfOk result (λ b. IsLeaf b self.now) }
        ensures err { IfErr result (λ e. e ≡ Memory) }
    {
        Ok(Blob::copy_of(alloc, &self.bytes)?)
    }

    /// Its spelling. Takes no memory.
    pub fn into_blob(self) -> Blob
        ensures leaf { IsLeaf result self }
        ensures format { self.format ≡ 2 }
    {
        let LeafBuf { bytes, count: _ } = self;
        Blob::of(bytes)
    }
}
