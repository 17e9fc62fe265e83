//! The page of a checkpoint, as it was read.

use db_base::blob::Blob;
use leaf_view::{LeafView, NotLeaf};
use std::marker::Model;

/// A leaf as it was read, of either format, with the bytes that spell it.
pub struct Home {
    bytes: Blob,
}

impl Drop for Home {
    fn drop(self) {
        let Home { bytes: _ } = self;
    }
}

impl Model for Home {
    ghost use Rattle.leaf_view.specs.Leaf.{Leaf, IsLeaf};
    ghost use Rattle.leaf_edit.specs.Buffer.{leaf_in};

    ghost Value = { Leaf };

    ghost view = { λ h. leaf_in h.bytes };

    ghost invariant = { λ h. IsLeaf h.bytes (leaf_in h.bytes) };
}

impl Home {
    ghost use Rattle.std.specs.Prelude.{◌≡◌, Ok, IfOk, IfErr};
    ghost use Rattle.byte_format.specs.Whole.{offset};
    ghost use Rattle.leaf_view.specs.Leaf.{Leaf, IsLeaf, leaf};

    /// The leaf that the bytes spell, all of the bytes. Takes no memory.
    pub(crate) fn read(bytes: Blob) -> Result<Home, NotLeaf>
        ensures found { IfOk result (λ l. IsLeaf bytes l) }
        ensures only { (l : Leaf) → IsLeaf bytes l → result ≡ Ok l }
        ensures offset { IfErr result (λ e. e.offset ≡ offset leaf bytes) }
    {
        LeafView::read(bytes.as_slice())?;
        Ok(Home { bytes })
    }

    /// The leaf, borrowed.
    pub(crate) fn view(&self) -> LeafView<'_>
        ensures { result ≡ self.now }
    {
        LeafView::known(self.bytes.as_slice())
    }
}
