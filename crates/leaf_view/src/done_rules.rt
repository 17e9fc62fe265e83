//! The items of the table of what is done.

ghost use Rattle.std.specs.Prelude.{◌≡◌, ◌≤◌, ℕ, [], ◌∷◌, Option, MatchOption};
ghost use Rattle.byte_format.specs.Plain.{items_in, IsListed};
ghost use Rattle.std.specs.Option.{option_copied};
ghost use Rattle.db_base.specs.Limits.{last_client};
ghost use Rattle.byte_format.specs.Gives.{Gives};
ghost use Rattle.leaf_view.specs.Leaf.{done_item, least_queue, least_client, plain_done};

use crate::done::Done;
use byte_format::{Rules, Stop, more_at, u8_at, u64_at};
use db_base::ids::ClientId;

/// Items ascend by queue and then client.
pub(crate) struct DoneRules;

impl<'a> Rules<'a> for DoneRules {
    type Item = Done;

    ghost item_format = { λ _ before. done_item before };

    #[tactic(auto, unfolding(crate::specs::Leaf::done_item))]
    fn item(&self, before: Option<&Done>, bytes: &'a [u8]) -> Result<(Done, &'a [u8]), Stop> {
        let (queue, rest) = u64_at(bytes, least_queue(before), u64::MAX)?;
        let (client, rest) = u8_at(rest, least_client(before, queue), 64)?;
        let (number, rest) = u64_at(rest, 1, u64::MAX)?;
        Ok((
            Done {
                queue,
                client: client_of(client),
                number,
            },
            rest,
        ))
    }
}

fn client_of(n: u8) -> ClientId
    requires some { 1 ≤ n }
    requires most { n ≤ last_client }
    ensures { result ≡ n }
{
    ClientId::new(u64::from(n)).unwrap()
}

fn least_queue(before: Option<&Done>) -> u64
    ensures { result ≡ least_queue (option_copied before.entry) }
{
    match before {
        None => 0,
        Some(last) => last.queue,
    }
}

fn least_client(before: Option<&Done>, queue: u64) -> u8
    ensures least { result ≡ least_client (option_copied before.entry) queue }
    ensures some { 1 ≤ result }
{
    match before {
        Some(last) if last.queue == queue => last.client.get() as u8 + 1,
        _ => 1,
    }
}

/// An item of a list that was checked, and the bytes behind it.
#[tactic(auto, unfolding(crate::specs::Leaf::plain_done))]
pub(crate) fn done_at(bytes: &[u8]) -> Result<(Done, &[u8]), Stop>
    ensures { Gives (λ x. (x.0, x.1.now)) result (plain_done.reading bytes.now) }
{
    let (queue, rest) = u64_at(bytes, 0, u64::MAX)?;
    let (client, rest) = u8_at(rest, 1, 64)?;
    let (number, rest) = u64_at(rest, 1, u64::MAX)?;
    Ok((
        Done {
            queue,
            client: client_of(client),
            number,
        },
        rest,
    ))
}

/// The first item of a list that was checked, and the rest of the list.
pub(crate) fn split_done(bytes: &[u8]) -> Option<(Done, &[u8])>
    requires { IsListed plain_done bytes.now }
    ensures { MatchOption result (items_in plain_done bytes.now ≡ [])
        (λ x. IsListed plain_done x.1.now
        × (items_in plain_done bytes.now ≡ x.0 ∷ items_in plain_done x.1.now)) }
{
    let Ok((more, rest)) = more_at(bytes, true) else {
        unreachable!()
    };
    if !more {
        return None;
    }
    let Ok((item, rest)) = done_at(rest) else {
        unreachable!()
    };
    Some((item, rest))
}
