//! Copies of events and of answers show what the originals show.
use std::alloc::Global;
use std::fmt::Debug;
use std::test::Fail;
use tcmu_types::{
    Answer, Bytes, Cdb, Command, Dispatch, Event, Handle, Name, Reply, ScsiStatus, Serials,
};

fn look_alike<T: Debug>(alloc: Global, one: &T, other: &T) -> Result<bool, Fail> {
    let one = format!(in alloc; "{one:?}")?;
    let other = format!(in alloc; "{other:?}")?;
    Ok(one == other)
}

fn submit(alloc: Global) -> Result<Event, Fail> {
    let name = Name::new("a").ok_or("a name")?;
    let cdb = Cdb::new(&[0x0a, 0, 0, 3, 1, 0]).map_err(|_| "a block")?;
    let sent = Bytes::from_slice(alloc, b"sent")?;
    let command = Command::new(name, 7, cdb, sent, 0).ok_or("a command")?;
    Ok(Event::Submit(command))
}

fn serials(alloc: Global) -> Result<Serials, Fail> {
    Ok(Serials::from_slice(alloc, &[3, 5])?)
}

fn reply(alloc: Global) -> Result<Reply, Fail> {
    Ok(Reply {
        status: ScsiStatus::GOOD,
        sense: None,
        payload: Bytes::from_slice(alloc, b"read")?,
    })
}

fn note(alloc: Global) -> Result<Event, Fail> {
    let serials = serials(alloc)?;
    Ok(Event::Tmr { kind: 1, serials })
}

fn done(alloc: Global) -> Result<Answer, Fail> {
    Ok(Answer::Handle(Handle::Done(reply(alloc)?)))
}

fn noted(alloc: Global) -> Result<Answer, Fail> {
    let serials = serials(alloc)?;
    Ok(Answer::Dispatch(Dispatch::Note { kind: 5, serials }))
}

/// Whether a copy of the event shows what the event shows.
fn event_copied(alloc: Global, event: &Event) -> Result<bool, Fail> {
    let copy = event.try_clone(alloc)?;
    look_alike(alloc, event, &copy)
}

/// Whether a copy of the answer shows what the answer shows.
fn answer_copied(alloc: Global, answer: &Answer) -> Result<bool, Fail> {
    let copy = answer.try_clone(alloc)?;
    look_alike(alloc, answer, &copy)
}

fn submit_copied(alloc: Global) -> Result<bool, Fail> {
    event_copied(alloc, &submit(alloc)?)
}

fn note_copied(alloc: Global) -> Result<bool, Fail> {
    event_copied(alloc, &note(alloc)?)
}

fn done_copied(alloc: Global) -> Result<bool, Fail> {
    answer_copied(alloc, &done(alloc)?)
}

fn noted_copied(alloc: Global) -> Result<bool, Fail> {
    answer_copied(alloc, &noted(alloc)?)
}

#[test]
fn events_are_copied(rt: HostRuntime) -> Result<(), Fail> {
    let alloc = rt.alloc();
    assert!(rt; submit_copied(alloc)?);
    assert!(rt; note_copied(alloc)?);
    assert!(rt; event_copied(alloc, &Event::Tick(9))?);
    Ok(())
}

#[test]
fn answers_are_copied(rt: HostRuntime) -> Result<(), Fail> {
    let alloc = rt.alloc();
    assert!(rt; done_copied(alloc)?);
    assert!(rt; noted_copied(alloc)?);
    assert!(rt; answer_copied(alloc, &Answer::Lost(4))?);
    Ok(())
}
