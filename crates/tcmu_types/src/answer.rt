//! What the events of a device answer. A refusal of room names what is needed and what is free: bytes of the ring, or data blocks.
ghost use Rattle.std.specs.Prelude.{◌≡◌, [], IfOk, length};
ghost use Rattle.tcmu_types.specs.Views.{dispatch_data, answer_data};
ghost use Rattle.tcmu_types.specs.Copied.{handle_bytes, dispatch_serials, bytes_in_answer, answer_serials, HasCopyRoom, LeavesRoom};

use crate::{CopyRoom, NoMemory, Reply, Serials, Stat};
use std::alloc::Global;

/// The answer to an event, by the kind of the event.
#[derive(Debug, Drop)]
pub enum Answer {
    Submit(Submit),
    Dispatch(Dispatch),
    Handle(Handle),
    Respond(Respond),
    Publish(Publish),
    /// Of a clean or a tick: how many completions it logged.
    Logged(u64),
    /// Of a block or an unblock: false where the device already was so.
    Changed(bool),
    Reset(Reset),
    /// Of a restart: how many commands turned Lost: those out, handled or parked, and those placed but not published.
    Lost(u64),
    Tmr(Tmr),
    Stat(Stat),
    Enter(Enter),
}

impl Answer {
    /// How many bytes it carries, and how many serials it names.
    fn sizes(&self) -> (usize, usize)
        ensures bytes { result.0 ≡ length (bytes_in_answer (answer_data self.now)) }
        ensures serials { result.1 ≡ length (answer_serials (answer_data self.now)) }
    {
        match self {
            Answer::Handle(Handle::Done(reply)) => (reply.payload.len(), 0),
            Answer::Dispatch(Dispatch::Note { serials, .. }) => (0, serials.len()),
            Answer::Handle(Handle::NotOut(_))
            | Answer::Dispatch(Dispatch::Job(_) | Dispatch::Nothing | Dispatch::Detached)
            | Answer::Submit(_)
            | Answer::Respond(_)
            | Answer::Publish(_)
            | Answer::Enter(_)
            | Answer::Logged(_)
            | Answer::Changed(_)
            | Answer::Reset(_)
            | Answer::Lost(_)
            | Answer::Tmr(_)
            | Answer::Stat(_) => (0, 0),
        }
    }

    /// The same answer once more, what it carries in the room.
    pub fn copied_into(&self, room: &mut CopyRoom) -> Answer
        requires { HasCopyRoom (bytes_in_answer (answer_data self.now)) (answer_serials (answer_data self.now)) room.old }
        ensures copy { answer_data result ≡ answer_data self.now }
        ensures room { LeavesRoom (bytes_in_answer (answer_data self.now)) (answer_serials (answer_data self.now)) room.old room.new }
    {
        match self {
            Answer::Submit(answer) => Answer::Submit(*answer),
            Answer::Dispatch(answer) => Answer::Dispatch(answer.copied_into(room)),
            Answer::Handle(answer) => Answer::Handle(answer.copied_into(room)),
            Answer::Respond(answer) => Answer::Respond(*answer),
            Answer::Publish(answer) => Answer::Publish(*answer),
            Answer::Logged(completions) => Answer::Logged(*completions),
            Answer::Changed(changed) => Answer::Changed(*changed),
            Answer::Reset(answer) => Answer::Reset(*answer),
            Answer::Lost(commands) => Answer::Lost(*commands),
            Answer::Tmr(answer) => Answer::Tmr(*answer),
            Answer::Stat(stat) => Answer::Stat(*stat),
            Answer::Enter(answer) => Answer::Enter(*answer),
        }
    }

    /// The same answer once more.
    pub fn try_clone(&self, alloc: Global) -> Result<Answer, NoMemory>
        ensures { IfOk result (λ a. answer_data a ≡ answer_data self.now) }
    {
        let (bytes, serials) = self.sizes();
        let mut room = CopyRoom::new(alloc);
        room.reserve(bytes, serials)?;
        Ok(self.copied_into(&mut room))
    }
}

/// `Queued` and `Delayed` give the serial of a command that is accepted: it stands in the ring, or it waits for room. `Busy` comes from a
/// blocked device. `TooBig` names the entry's length and half the ring (bytes), or the data blocks and the device's limit.
/// `FullRing` (bytes) and `FullBlocks` (data blocks) come where room lacks now and no command waits for room.
#[derive(Clone, Copy, Debug, Drop, PartialEq, Eq)]
pub enum Submit {
    /// The serial of the command, which is laid in the ring.
    Queued(u64),
    /// The serial of the command, which waits for room; of devices with `qfull` above 0 alone.
    Delayed(u64),
    Busy,
    /// What the command takes and the most that there may be: bytes of the ring, or else data blocks. It will never fit.
    TooBig { have: u32, limit: u32 },
    /// Bytes, padding among those needed.
    FullRing { need: u32, free: u32 },
    /// Data blocks.
    FullBlocks { need: u32, free: u32 },
}

/// The next item of the ring, as the user side finds it.
#[derive(Debug, Drop)]
pub enum Dispatch {
    /// The command of this serial goes to its handler.
    Job(u64),
    /// A task management function of this type (`TCMU_TMR_*`), and those of its serials whose commands are Out or Handled: dispatched,
    /// and not responded.
    Note { kind: u8, serials: Serials },
    /// All items are dispatched.
    Nothing,
    /// No user side is attached.
    Detached,
}

impl Dispatch {
    /// The same answer once more, its serials in the room.
    pub fn copied_into(&self, room: &mut CopyRoom) -> Dispatch
        requires { HasCopyRoom [] (dispatch_serials (dispatch_data self.now)) room.old }
        ensures copy { dispatch_data result ≡ dispatch_data self.now }
        ensures room { LeavesRoom [] (dispatch_serials (dispatch_data self.now)) room.old room.new }
    {
        match self {
            Dispatch::Job(serial) => Dispatch::Job(*serial),
            Dispatch::Note { kind, serials } => Dispatch::Note {
                kind: *kind,
                serials: room.copy_serials(serials.as_slice()),
            },
            Dispatch::Nothing => Dispatch::Nothing,
            Dispatch::Detached => Dispatch::Detached,
        }
    }
}

/// What the handler makes of a command.
#[derive(Debug, Drop)]
pub enum Handle {
    /// The handler's reply.
    Done(Reply),
    /// No command of this serial waits for its handler.
    NotOut(u64),
}

impl Handle {
    /// The same answer once more, its payload in the room.
    pub fn copied_into(&self, room: &mut CopyRoom) -> Handle
        requires { HasCopyRoom (handle_bytes self.now) [] room.old }
        ensures copy { result ≡ self.now }
        ensures room { LeavesRoom (handle_bytes self.now) [] room.old room.new }
    {
        match self {
            Handle::Done(reply) => Handle::Done(reply.copied_into(room)),
            Handle::NotOut(serial) => Handle::NotOut(*serial),
        }
    }
}

/// Where the answer of a handled command goes.
#[derive(Clone, Copy, Debug, Drop, PartialEq, Eq)]
pub enum Respond {
    /// It stands in the ring.
    Placed,
    /// It waits for the answers of commands that were laid before.
    Parked,
    /// No command of this serial has a reply that waits.
    NotHandled(u64),
}

/// `Moved` counts the ring items that became published, pads too, and the command items among them. `Detached`: no user side is
/// attached.
#[derive(Clone, Copy, Debug, Drop, PartialEq, Eq)]
pub enum Publish {
    /// Both 0 where the tail stays.
    Moved { items: u64, commands: u64 },
    Detached,
}

/// `Reset` counts the completions logged. Without it nothing has changed: the device is not blocked, or `HandlersOut` counts the commands
/// that a handler still has, or whose answers are not in the ring yet.
#[derive(Clone, Copy, Debug, Drop, PartialEq, Eq)]
pub enum Reset {
    /// How many completions were logged.
    Reset(u64),
    NotBlocked,
    /// How many commands are Out, Handled or Parked; at least 1.
    HandlersOut(u64),
}

/// Whether a task management function is laid in the ring.
#[derive(Clone, Copy, Debug, Drop, PartialEq, Eq)]
pub enum Tmr {
    Noted,
    /// The device was made without them.
    Off,
    /// The device is blocked.
    Busy,
    /// The first of the named serials that has no unfinished command in the ring.
    Unknown(u64),
    /// Bytes of the ring for the note, padding among those needed.
    FullRing { need: u32, free: u32 },
}

/// Whether the command that waits longest for room is laid in the ring.
#[derive(Clone, Copy, Debug, Drop, PartialEq, Eq)]
pub enum Enter {
    /// It is, the one of this serial.
    Entered(u64),
    /// No command waits.
    Empty,
    /// Bytes, padding among those needed; the command goes on waiting.
    FullRing { need: u32, free: u32 },
    /// Data blocks; the command goes on waiting.
    FullBlocks { need: u32, free: u32 },
}
