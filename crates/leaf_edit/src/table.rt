//! The table of what is done, raised by a run.

ghost use Rattle.std.specs.Prelude.{◌≡◌, ℕ, ◌+◌, ◌≤◌, [], ◌∷◌, filter, max, slice_index, vec_len};
ghost use Rattle.std.specs.Vec.{vec_capacity};
ghost use Rattle.db_base.specs.Ids.{IsClient};
ghost use Rattle.db_base.specs.Limits.{last_client};
ghost use Rattle.byte_format.specs.Adds.{Adds};
ghost use Rattle.leaf_edit.specs.Raised.{AreRaised, number_in, own_entries, raised, with_done};
ghost use Rattle.leaf_edit.specs.Sizes.{dones_size, IsSize};
ghost use Rattle.leaf_edit.specs.Spelled.{dones_before, is_beside};

use crate::spell::{DONE_LEN, add_done};
use db_base::ids::ClientId;
use leaf_view::{Done, DoneList, LeafView, Numbers};
use log_codec::record::PuItem;

/// How many bytes the entries of a queue have at most, one for each of the 64 clients.
pub(crate) const OWN_LEN: usize = 64 * DONE_LEN;

/// Raises the client of an item to the item's number.
fn raise(numbers: &mut Numbers, x: &PuItem)
    ensures { (client : ℕ) → slice_index numbers.new client ≡ max (slice_index numbers.old client) (number_in x.now client) }
{
    if numbers.get(x.rec.client) < x.rec.number {
        numbers.set(x.rec.client, x.rec.number);
    }
}

/// The numbers up to which the records of the queue are applied behind the run, by client.
fn raised_numbers(leaf: &LeafView<'_>, queue: u64, run: &[PuItem]) -> Numbers
    ensures { AreRaised leaf.now.done queue run.now (λ client. slice_index result client) }
{
    let mut numbers = leaf.numbers(queue);
    let mut left = run;
    while let Some((x, rest)) = left.split_first() {
        raise(&mut numbers, x);
        left = rest;
    }
    numbers
}

/// The client of a number.
fn client_at(number: u64) -> ClientId
    requires { IsClient number }
    ensures { result ≡ number }
{
    let Ok(client) = ClientId::new(number) else {
        unreachable!()
    };
    client
}

/// How many bytes an entry has, where something is done.
fn done_len(queue: u64, client: ClientId, number: u64) -> usize
    ensures { result ≡ dones_size (with_done queue client number []) }
{
    if number == 0 { 0 } else { DONE_LEN }
}

/// Appends an entry, where something is done.
fn add_if_done(out: &mut Vec<u8>, queue: u64, client: ClientId, number: u64)
    requires { vec_len out.old + dones_size (with_done queue client number []) ≤ vec_capacity out.old }
    ensures { Adds out.old out.new (dones_before (with_done queue client number []) []) }
{
    if number == 0 {
        return;
    }
    add_done(
        out,
        &Done {
            queue,
            client,
            number,
        },
    );
}

/// So many bytes, and those of the queue's entries by client.
fn own_len(total: usize, queue: u64, numbers: &Numbers) -> Option<usize>
    ensures { IsSize result (total + dones_size (own_entries queue (λ client. slice_index numbers.now client) last_client)) }
{
    let mut sum = total;
    let mut left: u64 = 64;
    while left > 0 {
        left -= 1;
        let client = client_at(64 - left);
        let number = numbers.get(client);
        sum = sum.checked_add(done_len(queue, client, number))?;
    }
    Some(sum)
}

/// Appends the queue's entries by client.
fn add_own(out: &mut Vec<u8>, queue: u64, numbers: &Numbers)
    requires { vec_len out.old + dones_size (own_entries queue (λ client. slice_index numbers.now client) last_client) ≤ vec_capacity out.old }
    ensures { Adds out.old out.new (dones_before (own_entries queue (λ client. slice_index numbers.now client) last_client) []) }
{
    let mut left: u64 = 64;
    while left > 0 {
        left -= 1;
        let client = client_at(64 - left);
        let number = numbers.get(client);
        add_if_done(out, queue, client, number);
    }
}

/// Whether the entry's queue is on this side of another, above it or below it.
fn is_beside(above: bool, queue: u64, entry: &Done) -> bool
    ensures { result ≡ is_beside above queue entry.now }
{
    if above {
        queue < entry.queue
    } else {
        entry.queue < queue
    }
}

/// How many bytes the entry has, where its queue is on this side.
fn beside_len(above: bool, queue: u64, entry: &Done) -> usize
    ensures { result ≡ dones_size (filter (is_beside above queue) (entry.now ∷ [])) }
{
    if is_beside(above, queue, entry) {
        DONE_LEN
    } else {
        0
    }
}

/// Appends the entry where its queue is on this side.
fn add_if_beside(out: &mut Vec<u8>, above: bool, queue: u64, entry: &Done)
    requires { vec_len out.old + dones_size (filter (is_beside above queue) (entry.now ∷ [])) ≤ vec_capacity out.old }
    ensures { Adds out.old out.new (dones_before (filter (is_beside above queue) (entry.now ∷ [])) []) }
{
    if is_beside(above, queue, entry) {
        add_done(out, entry);
    }
}

/// So many bytes, and those of the entries of the queues on this side.
fn others_len(total: usize, above: bool, queue: u64, list: DoneList<'_>) -> Option<usize>
    ensures { IsSize result (total + dones_size (filter (is_beside above queue) list.entry)) }
{
    let mut sum = total;
    let mut left = list;
    while let Some((entry, rest)) = left.again().split() {
        sum = sum.checked_add(beside_len(above, queue, &entry))?;
        left = rest;
    }
    Some(sum)
}

/// Appends the entries of the queues on this side.
fn add_others(out: &mut Vec<u8>, above: bool, queue: u64, list: DoneList<'_>)
    requires { vec_len out.old + dones_size (filter (is_beside above queue) list) ≤ vec_capacity out.old }
    ensures { Adds out.old out.new (dones_before (filter (is_beside above queue) list.entry) []) }
{
    let mut left = list;
    while let Some((entry, rest)) = left.again().split() {
        add_if_beside(out, above, queue, &entry);
        left = rest;
    }
}

/// So many bytes, and those of all entries.
pub(crate) fn all_len(total: usize, list: DoneList<'_>) -> Option<usize>
    ensures { IsSize result (total + dones_size list.entry) }
{
    let mut sum = total;
    let mut left = list;
    while let Some((_, rest)) = left.again().split() {
        sum = sum.checked_add(DONE_LEN)?;
        left = rest;
    }
    Some(sum)
}

/// So many bytes, and those of the table behind the run.
pub(crate) fn table_len(
    total: usize,
    leaf: &LeafView<'_>,
    queue: u64,
    run: &[PuItem],
) -> Option<usize>
    ensures { IsSize result (total + dones_size (raised leaf.now.done queue run.now)) }
{
    let lower = others_len(total, false, queue, leaf.done_list())?;
    let own = own_len(lower, queue, &raised_numbers(leaf, queue, run))?;
    others_len(own, true, queue, leaf.done_list())
}

/// Appends the table behind the run.
pub(crate) fn add_table(out: &mut Vec<u8>, leaf: &LeafView<'_>, queue: u64, run: &[PuItem])
    requires { vec_len out.old + dones_size (raised leaf.now.done queue run.now) ≤ vec_capacity out.old }
    ensures { Adds out.old out.new (dones_before (raised leaf.now.done queue run.now) []) }
{
    add_others(out, false, queue, leaf.done_list());
    add_own(out, queue, &raised_numbers(leaf, queue, run));
    add_others(out, true, queue, leaf.done_list());
}
