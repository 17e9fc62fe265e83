//! What of its own a client sees in a leaf.

ghost use Rattle.std.specs.Prelude.{◌≡◌, ◌==◌, ◌&&◌, List, ℕ};
ghost use Rattle.std.specs.Option.{option_copied};
ghost use Rattle.db_base.specs.Change.{key_of};
ghost use Rattle.range_scan.specs.Bounds.{AreBoundsOf, cut_at};
ghost use Rattle.range_scan.specs.Pairs.{is_listed, is_listed_pending};

use crate::bounds::{Bounds, later, nearer};
use byte_format::is_below_bound;
use db_base::change::Change;
use db_base::ids::{ClientId, TreeId};
use head_codec::entry::Entry;
use head_codec::head::Head;
use leaf_view::LeafView;
use std::marker::Model;
use txn_buffer::buffer::TxnBuffer;

/// What is looked at: a leaf, the keys that are asked for, and a client's own changes.
pub struct Sight<'a> {
    /// The leaf.
    pub leaf: LeafView<'a>,
    /// Its tree.
    pub tree: TreeId,
    /// The key from which on pairs are asked for.
    pub from: &'a [u8],
    /// The key below which they are, where there is one.
    pub to: Option<&'a [u8]>,
    /// The client that looks.
    pub client: ClientId,
    /// Its head, with the changes that it committed.
    pub head: &'a Head,
    /// Its buffer, with those that it did not commit yet.
    pub buffer: &'a TxnBuffer,
}

impl<'a> Drop for Sight<'a> {
    fn drop(self) {
        let Sight {
            leaf: _,
            tree: _,
            from: _,
            to: _,
            client: _,
            head: _,
            buffer: _,
        } = self;
    }
}

impl<'a> Model for Sight<'a> {
    ghost use Rattle.std.specs.Option.{option_copied};
    ghost use Rattle.range_scan.specs.Pairs.{Sight as State};

    ghost Value = { State };

    ghost view = { λ s. record { leaf = s.leaf; tree = s.tree; from = s.from.now; to = option_copied s.to; client = s.client; head = s.head.now; buffer = s.buffer.now } };
}

impl<'a> Sight<'a> {
    /// Between which keys a key is asked for, and one of the leaf's.
    pub(crate) fn bounds(&self) -> Bounds<'a>
        ensures { AreBoundsOf self.now result }
    {
        Bounds {
            from: later(self.leaf.low(), self.from),
            to: nearer(self.leaf.high(), self.to),
        }
    }

    /// The key of the leaf's range below which keys are asked for; none where no key of the leaf is too great.
    pub(crate) fn cut(&self) -> Option<&'a [u8]>
        ensures { option_copied result ≡ cut_at self.now.leaf.high self.now.to }
    {
        match self.to {
            Some(to) if is_below_bound(to, self.leaf.high()) => Some(to),
            _ => None,
        }
    }

    /// Whether a pending entry is of a key that is asked for, and the leaf lacks it.
    pub(crate) fn lists_pending(&self, bounds: &Bounds<'a>, entry: &Entry) -> bool
        requires { AreBoundsOf self.now bounds.now }
        ensures { result ≡ is_listed_pending self.now entry.now }
    {
        let entry = entry.get();
        entry.tree.get() == self.tree.get()
            && bounds.hold(entry.change.key().as_slice())
            && self.leaf.done(entry.page, self.client) < entry.number
    }

    /// Whether a change that is noted for a tree is of a key that is asked for.
    pub(crate) fn lists_noted(&self, bounds: &Bounds<'a>, tree: TreeId, change: &Change) -> bool
        requires { AreBoundsOf self.now bounds.now }
        ensures { result ≡ ((tree == self.now.tree) && is_listed self.now (key_of change.now)) }
    {
        tree.get() == self.tree.get() && bounds.hold(change.key().as_slice())
    }
}
