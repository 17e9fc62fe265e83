use db_base::ids::ClientId;
use head_codec::head::Head;
use std::marker::Model;
use txn_buffer::buffer::TxnBuffer;

/// What a client sees beside the leaves: its own changes.
pub struct Own<'a> {
    /// The client.
    pub client: ClientId,
    /// Its head, with the changes that it committed.
    pub head: &'a Head,
    /// Its buffer, with those that it did not commit yet.
    pub buffer: &'a TxnBuffer,
}

impl<'a> Drop for Own<'a> {
    fn drop(self) {
        let Own {
            client: _,
            head: _,
            buffer: _,
        } = self;
    }
}

impl<'a> Model for Own<'a> {
    ghost use Rattle.attr_index.specs.Look.{Own as State};

    ghost Value = { State };

    ghost view = { λ o. record { client = o.client; head = o.head.now; buffer = o.buffer.now } };
}
