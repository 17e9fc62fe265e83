//! What client 1 does in tree 1 and its index, step by step. It is told of any client and any cloud, so that it is proved without the types of each.

use crate::store::{put, put_in_index};
use crate::story::Story;
use cloud_trait::cloud::Bench;
use db_base::wish::Wish;
use std::test::Fail;

/// A step of a script.
#[derive(Clone, Copy)]
pub(crate) enum Step<'a> {
    /// Another client puts an object by its number, 0 for the tree object.
    Puts(u64, &'a [u8]),
    /// Another client puts an object of the index so.
    PutsInIndex(u64, &'a [u8]),
    /// The next call fails.
    Fails,
    /// The next call is answered by the version of this number.
    GetsVersion(u64),
    /// The client's head from now on.
    HasHead(&'a [u8]),
    /// The client notes an insert of a key with a payload, and no attribute.
    Inserts(&'a [u8], &'a [u8]),
    /// The same with an attribute.
    InsertsWith(&'a [u8], &'a [u8], &'a [u8]),
    /// The client notes an insert of an entry in the index.
    Lists(&'a [u8]),
    /// The client notes an update of a key with a payload.
    Updates(&'a [u8], &'a [u8]),
    /// The client notes a deletion of a key.
    Deletes(&'a [u8]),
    /// A walk to a key, to the left end without one, over what is kept.
    Walks(&'a [u8]),
    /// The same, which gets the tree object anew.
    WalksAnew(&'a [u8]),
    /// A read of a key.
    Reads(&'a [u8]),
    /// A scan from a key on and below another, no byte for none.
    Scans(&'a [u8], &'a [u8]),
    /// The same, whose call of this number, from 1, is answered by the first version.
    ScansLate(&'a [u8], &'a [u8], u64),
    /// A scan that tells at each leaf the key at which a new one goes on.
    Resumes(&'a [u8], &'a [u8]),
    /// A look-up of an attribute.
    LooksUp(&'a [u8]),
    /// The same, whose calls from this number on, from 1, are answered by the first version.
    LooksUpLate(&'a [u8], u64),
}

/// A change that a client notes.
#[derive(Clone, Copy)]
pub(crate) enum Edit<'a> {
    Insert(&'a [u8], &'a [u8]),
    InsertWith(&'a [u8], &'a [u8], &'a [u8]),
    List(&'a [u8]),
    Update(&'a [u8], &'a [u8]),
    Delete(&'a [u8]),
}

/// What a client does.
pub(crate) trait Client {
    /// The client's head from now on.
    fn has_head(&mut self, bytes: &[u8]) -> Result<(), Fail>;

    /// Notes a change of its own.
    fn note(&mut self, edit: Edit<'_>) -> Result<(), Fail>;

    /// A walk: its calls, and the leaf at which it ended or its trouble.
    fn walk<C: Bench>(
        &mut self,
        cloud: &mut C,
        story: &mut Story,
        to: &[u8],
        fresh: bool,
    ) -> Result<(), Fail>;

    /// A read of a key: its calls, and then the leaf and the value.
    fn read<C: Bench>(&mut self, cloud: &mut C, story: &mut Story, key: &[u8]) -> Result<(), Fail>;

    /// A scan: its calls, the leaves at which it ends with their pairs, and its trouble.
    fn scan<C: Bench>(
        &mut self,
        cloud: &mut C,
        story: &mut Story,
        from: &[u8],
        to: &[u8],
        late: u64,
    ) -> Result<(), Fail>;

    /// A scan: its calls, and the leaves at which it ends with the keys at which a new one goes on.
    fn resume<C: Bench>(
        &mut self,
        cloud: &mut C,
        story: &mut Story,
        from: &[u8],
        to: &[u8],
    ) -> Result<(), Fail>;

    /// A look-up of an attribute: its calls, and the records found or its trouble.
    fn look_up<C: Bench>(
        &mut self,
        cloud: &mut C,
        story: &mut Story,
        attr: &[u8],
        late: u64,
    ) -> Result<(), Fail>;
}

/// Plays a script.
pub(crate) fn play_all<M: Client, C: Bench>(
    client: &mut M,
    cloud: &mut C,
    story: &mut Story,
    script: &[Step<'_>],
) -> Result<(), Fail> {
    for step in script {
        play_step(client, cloud, story, *step)?;
    }
    Ok(())
}

fn play_step<M: Client, C: Bench>(
    client: &mut M,
    cloud: &mut C,
    story: &mut Story,
    step: Step<'_>,
) -> Result<(), Fail> {
    match step {
        Step::Puts(number, bytes) => put(cloud, number, bytes),
        Step::PutsInIndex(number, bytes) => put_in_index(cloud, number, bytes),
        Step::Fails => wish(cloud, Wish::Fail),
        Step::GetsVersion(number) => wish(cloud, Wish::Old(number)),
        Step::HasHead(bytes) => client.has_head(bytes),
        Step::Inserts(key, payload) => client.note(Edit::Insert(key, payload)),
        Step::InsertsWith(key, payload, attr) => {
            client.note(Edit::InsertWith(key, payload, attr))
        }
        Step::Lists(entry) => client.note(Edit::List(entry)),
        Step::Updates(key, payload) => client.note(Edit::Update(key, payload)),
        Step::Deletes(key) => client.note(Edit::Delete(key)),
        Step::Walks(to) => client.walk(cloud, story, to, false),
        Step::WalksAnew(to) => client.walk(cloud, story, to, true),
        Step::Reads(key) => client.read(cloud, story, key),
        Step::Scans(from, to) => client.scan(cloud, story, from, to, 0),
        Step::ScansLate(from, to, late) => client.scan(cloud, story, from, to, late),
        Step::Resumes(from, to) => client.resume(cloud, story, from, to),
        Step::LooksUp(attr) => client.look_up(cloud, story, attr, 0),
        Step::LooksUpLate(attr, late) => client.look_up(cloud, story, attr, late),
    }
}

fn wish<C: Bench>(cloud: &mut C, wish: Wish) -> Result<(), Fail> {
    cloud.wish(wish);
    Ok(())
}
