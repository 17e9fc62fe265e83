use db_base::blob::Blob;

/// A record of a leaf.
#[derive(Debug)]
pub struct Stored {
    /// The key.
    pub key: Blob,
    /// The payload.
    pub payload: Blob,
    /// The attribute, where the record has one.
    pub attr: Option<Blob>,
}

impl Drop for Stored {
    fn drop(self) {
        let Stored {
            key: _,
            payload: _,
            attr: _,
        } = self;
    }
}
