ghost use Rattle.std.specs.Prelude.{◌≡◌, ◌≤◌, ◌++◌, ◌∷◌, [], IfOk, IfErr, OnOk};
ghost use Rattle.std.specs.Int.{to_be_bytes, w16, w64};
ghost use Rattle.event_text.specs.declared.event.Event.TheVariants.{Run, Open, Close};
ghost use Rattle.sched_gen.specs.Schedule.{change_event, checkpoint_events, state_behind, round_events, state_after, openings, closings, rounds, schedule};

use crate::draws::Draws;
use db_base::blob::Blob;
use event_text::event::Event;
use std::alloc::Global;
use words::fault::TextFault;

/// Adds an event that begins an operation, and the run of its session.
fn push_run(events: &mut Vec<Event>, first: Event, session: u64) -> Result<(), TextFault>
    ensures ok { OnOk result (events.new.items ≡ events.old.items ++ first ∷ Run session ∷ []) }
    ensures memory { IfErr result (λ e. e ≡ TextFault.Memory) }
{
    events.push(first)?;
    events.push(Event::Run { session })?;
    Ok(())
}

/// The change of a round.
fn change_event(
    alloc: Global,
    session: u64,
    place: u64,
    kind: u64,
    round: u64,
) -> Result<Event, TextFault>
    ensures ok { IfOk result (λ e. e ≡ change_event session place kind round) }
    ensures memory { IfErr result (λ e. e ≡ TextFault.Memory) }
{
    let tree = 1;
    let bytes = ((place % 4096) as u16).to_be_bytes();
    let key = Blob::copy_of(alloc, &bytes)?;
    if kind % 8 == 7 {
        return Ok(Event::Delete { session, tree, key });
    }
    let bytes = round.to_be_bytes();
    let payload = Blob::copy_of(alloc, &bytes)?;
    if kind % 8 <= 3 {
        Ok(Event::Insert {
            session,
            tree,
            key,
            payload,
            attr: None,
        })
    } else {
        Ok(Event::Update {
            session,
            tree,
            key,
            payload,
        })
    }
}

/// Adds the checkpoint of a round, where it has one.
fn push_checkpoint(
    events: &mut Vec<Event>,
    draws: &mut Draws,
    session: u64,
    round: u64,
) -> Result<(), TextFault>
    ensures ok { OnOk result (events.new.items ≡ events.old.items ++ checkpoint_events session round draws.old) }
    ensures state { OnOk result (draws.new ≡ state_behind round draws.old) }
    ensures memory { IfErr result (λ e. e ≡ TextFault.Memory) }
{
    if round % 16 == 0 {
        push_run(events, Event::Tree { session, tree: 1 }, session)
    } else if round % 16 == 8 {
        let page = 1 + draws.draw() % 64;
        push_run(
            events,
            Event::Page {
                session,
                tree: 1,
                page,
            },
            session,
        )
    } else {
        Ok(())
    }
}

/// Adds the events of a round.
fn push_round(
    alloc: Global,
    events: &mut Vec<Event>,
    draws: &mut Draws,
    round: u64,
) -> Result<(), TextFault>
    ensures ok { OnOk result (events.new.items ≡ events.old.items ++ round_events round draws.old) }
    ensures state { OnOk result (draws.new ≡ state_after round draws.old) }
    ensures memory { IfErr result (λ e. e ≡ TextFault.Memory) }
{
    let session = 1 + draws.draw() % 4;
    let place = draws.draw();
    let kind = draws.draw();
    let event = change_event(alloc, session, place, kind, round)?;
    events.push(event)?;
    push_run(events, Event::Commit { session }, session)?;
    push_checkpoint(events, draws, session, round)
}

/// Adds the openings of the four sessions.
fn push_openings(events: &mut Vec<Event>) -> Result<(), TextFault>
    ensures ok { OnOk result (events.new.items ≡ events.old.items ++ openings) }
    ensures memory { IfErr result (λ e. e ≡ TextFault.Memory) }
{
    push_run(
        events,
        Event::Open {
            session: 1,
            client: 1,
        },
        1,
    )?;
    push_run(
        events,
        Event::Open {
            session: 2,
            client: 2,
        },
        2,
    )?;
    push_run(
        events,
        Event::Open {
            session: 3,
            client: 3,
        },
        3,
    )?;
    push_run(
        events,
        Event::Open {
            session: 4,
            client: 4,
        },
        4,
    )
}

/// Adds the closings of the four sessions, and the settling.
fn push_closings(events: &mut Vec<Event>) -> Result<(), TextFault>
    ensures ok { OnOk result (events.new.items ≡ events.old.items ++ closings) }
    ensures memory { IfErr result (λ e. e ≡ TextFault.Memory) }
{
    push_run(events, Event::Close { session: 1 }, 1)?;
    push_run(events, Event::Close { session: 2 }, 2)?;
    push_run(events, Event::Close { session: 3 }, 3)?;
    push_run(events, Event::Close { session: 4 }, 4)?;
    events.push(Event::Settle)?;
    Ok(())
}

/// Adds so many rounds, from the first on.
fn push_rounds(
    alloc: Global,
    events: &mut Vec<Event>,
    number: u64,
    count: u64,
) -> Result<(), TextFault>
    requires { count ≤ 10000 }
    ensures ok { OnOk result (events.new.items ≡ events.old.items ++ rounds count 1 number) }
    ensures memory { IfErr result (λ e. e ≡ TextFault.Memory) }
{
    let mut draws = Draws::new(number);
    for round in 1..count + 1 {
        push_round(alloc, events, &mut draws, round)?;
    }
    Ok(())
}

/// The schedule of a number and a count of rounds, at most 10,000. Memory is the one refusal.
pub fn make(alloc: Global, number: u64, count: u64) -> Result<Vec<Event>, TextFault>
    requires { count ≤ 10000 }
    ensures ok { IfOk result (λ events. events.items ≡ schedule number count) }
    ensures memory { IfErr result (λ e. e ≡ TextFault.Memory) }
{
    let mut events = Vec::new(alloc);
    push_openings(&mut events)?;
    push_rounds(alloc, &mut events, number, count)?;
    push_closings(&mut events)?;
    Ok(events)
}
