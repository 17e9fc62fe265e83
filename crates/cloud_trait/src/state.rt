use crate::who::Who;
use db_base::blob::Blob;
use db_base::names::{ObjName, QueueName};

/// A landed version of an object.
#[derive(Debug)]
pub struct Version {
    /// Who put or removed it.
    pub who: Who,
    /// Its bytes; none where the object was removed.
    pub bytes: Option<Blob>,
}

impl Drop for Version {
    fn drop(self) {
        let Version { who: _, bytes: _ } = self;
    }
}

/// A message that was sent to a queue.
#[derive(Debug)]
pub struct Posted {
    /// Who sent it.
    pub who: Who,
    /// Its bytes.
    pub bytes: Blob,
    /// Whether it was deleted.
    pub deleted: bool,
}

impl Drop for Posted {
    fn drop(self) {
        let Posted {
            who: _,
            bytes: _,
            deleted: _,
        } = self;
    }
}

/// How a lock stands.
#[derive(Clone, Copy, Debug, PartialEq, Eq)]
pub struct Hold {
    /// How often it was given.
    pub generation: u64,
    /// The end of the newest lease, in ticks.
    pub until: u64,
}

/// Where something landed.
#[derive(Clone, Copy, Debug, PartialEq, Eq)]
pub enum Site {
    /// A put or a removal landed in this object.
    Object(ObjName),
    /// A send landed in this queue.
    Queue(QueueName),
}

/// A row of the trace: a put, a removal or a send that landed.
#[derive(Clone, Copy, Debug, PartialEq, Eq)]
pub struct Landing {
    /// Who made the call.
    pub who: Who,
    /// Where it landed.
    pub site: Site,
    /// The position of the version or message there, from 1.
    pub position: u64,
}
