//! The entries of one device, as they are made.
ghost use Rattle.std.specs.Prelude.{◌≡◌, ◌<◌, ◌^◌, [], map, IfOk, OnErr};
ghost use Rattle.tcmu_types.specs.Copied.{bytes_in_answer, answer_serials, HasCopyRoom};
ghost use Rattle.tcmu_types.specs.Views.{event_data, answer_data};
ghost use Rattle.tcmu_model.specs.Sound.{IsSound};
ghost use Rattle.tcmu_model.specs.Steps.{most_accepted};
ghost use Rattle.tcmu_path.specs.Calls.{Accepts};
ghost use Rattle.tcmu_path.specs.Tasks.{CanBeMade};
ghost use Rattle.journal_kept.specs.Keeping.{named_in, most_named, NotesName, MakesEntry};

use std::alloc::Global;
use std::marker::Model;
use tcmu_path::{Path, make_event};
use tcmu_types::{Answer, CopyRoom, Entry, Event, MOST_PAYLOAD, NoMemory};

/// The entries of the device of one number, and room for a copy of the longest answer that its next one can have.
#[derive(Drop)]
pub struct Entries {
    device: u32,
    longest: usize,
    room: CopyRoom,
    items: Vec<Entry>,
}

impl Model for Entries {
    ghost use Rattle.journal_kept.specs.Keeping.{EntriesData};

    ghost Value = { EntriesData };

    ghost view = { λ a. record { device = a.device; longest = a.longest; items = a.items.items } };
}

impl Entries {
    /// None yet, of a device whose administration makes these events.
    pub fn new(alloc: Global, device: u32, admin: &[Event]) -> Entries
        ensures { result ≡ record { device = device; longest = most_named (map event_data admin.now); items = [] } }
    {
        Entries {
            device,
            longest: most_named(admin),
            room: CopyRoom::new(alloc),
            items: Vec::new(alloc),
        }
    }

    /// The entries, in the order in which they were made.
    pub fn as_slice(&self) -> &[Entry]
        ensures { result.now ≡ self.now.items }
    {
        &self.items
    }

    /// Makes an event on a path and adds its entry. It answers a copy of the entry's answer, for which there is room before the event
    /// is made.
    pub fn make<P: Path>(
        &mut self,
        alloc: Global,
        path: &mut P,
        event: Event,
    ) -> Result<Answer, NoMemory>
        requires few { (P.device path.old).state.accepted < 2 ^ 63 }
        requires can { CanBeMade (event_data event) }
        requires sound { IsSound (P.device path.old).state }
        requires notes { NotesName self.old.longest (P.device path.old).state }
        ensures makes { IfOk result (λ answer. MakesEntry P.relation self.old (P.device path.old) (event_data event) answer self.new (P.device path.new)) }
        ensures unchanged { OnErr result ((self.new ≡ self.old) × (P.device path.new ≡ P.device path.old)) }
        ensures accepts { Accepts (most_accepted (event_data event)) (P.device path.old) (P.device path.new) }
    {
        self.items.reserve(1)?;
        self.room.reserve(MOST_PAYLOAD as usize, self.longest)?;
        let before = path.log().len();
        let answer = make_event(alloc, path, &event)?;
        let logged = (path.log().len() - before) as u64;
        let told = copy_answer(alloc, &mut self.room, &answer);
        self.items.push_reserved(Entry {
            device: self.device,
            event,
            answer,
            logged,
        });
        Ok(told)
    }
}

/// A copy of an answer: in memory of its own length, or else in the room.
fn copy_answer(alloc: Global, room: &mut CopyRoom, answer: &Answer) -> Answer
    requires { HasCopyRoom (bytes_in_answer (answer_data answer.now)) (answer_serials (answer_data answer.now)) room.old }
    ensures { answer_data result ≡ answer_data answer.now }
{
    match answer.try_clone(alloc) {
        Ok(copy) => copy,
        Err(NoMemory) => answer.copied_into(room),
    }
}

/// How many serials an event names.
fn named_in(event: &Event) -> usize
    ensures { result ≡ named_in (event_data event.now) }
{
    match event {
        Event::Tmr { serials, .. } => serials.len(),
        Event::Submit(_)
        | Event::Dispatch
        | Event::Handle(_)
        | Event::Respond(_)
        | Event::Publish
        | Event::Clean
        | Event::Tick(_)
        | Event::Block
        | Event::Unblock
        | Event::Reset(_)
        | Event::Restart
        | Event::Stat
        | Event::Enter => 0,
    }
}

/// The most serials that one of these events names.
fn most_named(events: &[Event]) -> usize
    ensures { result ≡ most_named (map event_data events.now) }
{
    let mut most = 0;
    for event in events {
        most = most.max(named_in(event));
    }
    most
}
