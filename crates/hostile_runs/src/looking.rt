//! A look-up with what its client has of its own, as one of the machines.

use crate::machine::{MOST_CALLS, Machine, keeping};
use crate::witness::Witness;
use attr_index::{Lookup, Own};
use cloud_trait::cloud::Cloud;
use cloud_trait::turn::Turn;
use cloud_trait::who::Who;
use db_base::attr::Attr;
use db_base::ids::{ClientId, TreeId};
use db_base::trouble::Trouble;
use head_codec::head::Head;
use page_cache::PageCache;
use std::alloc::Global;
use txn_buffer::buffer::TxnBuffer;

/// A look-up of a in tree 1; there is none before it begins.
#[derive(Drop)]
pub(crate) struct Looking {
    client: ClientId,
    head: Head,
    buffer: TxnBuffer,
    lookup: Option<Lookup>,
}

/// The begin of a look-up.
fn lookup(alloc: Global, cache: &mut PageCache) -> Result<Lookup, Trouble> {
    let (Ok(tree), Ok(attr)) = (TreeId::new(1), Attr::new(alloc, b"a")) else {
        return Err(Trouble::Memory);
    };
    Lookup::begin(alloc, tree, attr, cache)
}

impl Looking {
    /// The look-up of a client that has a head and changes in its buffer.
    pub(crate) fn new(client: ClientId, head: Head, buffer: TxnBuffer) -> Looking {
        Looking {
            client,
            head,
            buffer,
            lookup: None,
        }
    }
}

impl Machine for Looking {
    // Its bound is by the keys above the one to which it walks, of which a lie may show any.
    fn most(_witness: &Witness) -> u64 {
        MOST_CALLS
    }

    fn begin(&mut self, alloc: Global, cache: &mut PageCache) -> Turn<u64> {
        match lookup(alloc, cache) {
            Ok(lookup) => {
                self.lookup = Some(lookup);
                Turn::More
            }
            Err(trouble) => Turn::Stopped(trouble),
        }
    }

    fn make<C: Cloud>(
        &mut self,
        alloc: Global,
        cloud: &mut C,
        who: Who,
        cache: &mut PageCache,
    ) -> Turn<u64> {
        let own = Own {
            client: self.client,
            head: &self.head,
            buffer: &self.buffer,
        };
        match &mut self.lookup {
            Some(lookup) => keeping(lookup.step(alloc, cloud, who, cache, &own), 0),
            None => Turn::Stopped(Trouble::Failed),
        }
    }
}
