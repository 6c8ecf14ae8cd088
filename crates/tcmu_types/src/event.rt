//! The events of a device, and the entries of its journal.
ghost use Rattle.std.specs.Prelude.{◌≡◌, IfOk, length};
ghost use Rattle.tcmu_types.specs.Views.{event_data};
ghost use Rattle.tcmu_types.specs.Copied.{event_bytes, event_serials, HasCopyRoom, LeavesRoom};

use crate::answer::Answer;
use crate::{Command, CopyRoom, NoMemory, Serials};
use std::alloc::Global;
use std::marker::Model;

/// An event of a device, which the call of `Path` with its name makes. Serials number the accepted commands of a device from 1.
#[derive(Debug, Drop)]
pub enum Event {
    Submit(Command),
    Dispatch,
    /// Of the command of this serial.
    Handle(u64),
    /// Of the command of this serial.
    Respond(u64),
    Publish,
    Clean,
    /// So many ticks pass.
    Tick(u32),
    Block,
    Unblock,
    /// With the level 1 (what is open ends with BUSY) or 2 (with HARDWARE ERROR).
    Reset(u8),
    /// The user side is gone.
    Restart,
    /// A task management function of a type (of the kernel's `TCMU_TMR_*`), with the commands that it names.
    Tmr { kind: u8, serials: Serials },
    Stat,
    Enter,
}

impl Event {
    /// How many bytes it carries, and how many serials it names.
    fn sizes(&self) -> (usize, usize)
        ensures bytes { result.0 ≡ length (event_bytes (event_data self.now)) }
        ensures serials { result.1 ≡ length (event_serials (event_data self.now)) }
    {
        match self {
            Event::Submit(command) => (command.sent().len(), 0),
            Event::Tmr { serials, .. } => (0, serials.len()),
            Event::Dispatch
            | Event::Handle(_)
            | Event::Respond(_)
            | Event::Publish
            | Event::Clean
            | Event::Tick(_)
            | Event::Block
            | Event::Unblock
            | Event::Reset(_)
            | Event::Restart
            | Event::Stat
            | Event::Enter => (0, 0),
        }
    }

    /// The same event once more, what it carries in the room.
    pub fn copied_into(&self, room: &mut CopyRoom) -> Event
        requires { HasCopyRoom (event_bytes (event_data self.now)) (event_serials (event_data self.now)) room.old }
        ensures copy { event_data result ≡ event_data self.now }
        ensures room { LeavesRoom (event_bytes (event_data self.now)) (event_serials (event_data self.now)) room.old room.new }
    {
        match self {
            Event::Submit(command) => Event::Submit(command.copied_into(room)),
            Event::Dispatch => Event::Dispatch,
            Event::Handle(serial) => Event::Handle(*serial),
            Event::Respond(serial) => Event::Respond(*serial),
            Event::Publish => Event::Publish,
            Event::Clean => Event::Clean,
            Event::Tick(ticks) => Event::Tick(*ticks),
            Event::Block => Event::Block,
            Event::Unblock => Event::Unblock,
            Event::Reset(level) => Event::Reset(*level),
            Event::Restart => Event::Restart,
            Event::Tmr { kind, serials } => Event::Tmr {
                kind: *kind,
                serials: room.copy_serials(serials.as_slice()),
            },
            Event::Stat => Event::Stat,
            Event::Enter => Event::Enter,
        }
    }

    /// The same event once more.
    pub fn try_clone(&self, alloc: Global) -> Result<Event, NoMemory>
        ensures { IfOk result (λ e. event_data e ≡ event_data self.now) }
    {
        let (bytes, serials) = self.sizes();
        let mut room = CopyRoom::new(alloc);
        room.reserve(bytes, serials)?;
        Ok(self.copied_into(&mut room))
    }
}

/// One entry of a journal: the device's number, an event with its answer, and the number of completions that it logged.
#[derive(Debug, Drop)]
pub struct Entry {
    /// From 0, in the order in which the devices were made.
    pub device: u32,
    /// What was asked of the device.
    pub event: Event,
    /// Of the event's own kind.
    pub answer: Answer,
    /// How many completions the event appended to the device's log.
    pub logged: u64,
}

impl Model for Entry {
    ghost use Rattle.tcmu_types.specs.Events.{EntryData};
    ghost use Rattle.tcmu_types.specs.Views.{event_data, answer_data};

    ghost Value = { EntryData };

    ghost view = { λ a. record { device = a.device; event = event_data a.event; answer = answer_data a.answer; logged = a.logged } };
}
