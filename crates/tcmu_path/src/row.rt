//! An unfinished command of a plain device, with the room that its completion needs.
ghost use Rattle.std.specs.Prelude.{◌≡◌, ◌≤◌, ◌^◌, [], length, IfOk, Option, None, true, false, MatchOption};
ghost use Rattle.std.specs.List.{list_any, position, count_by};
ghost use Rattle.std.specs.Option.{option_to_list, option_map};
ghost use Rattle.tcmu_types.specs.Lists.{IsFirst, first_of};
ghost use Rattle.tcmu_model.specs.Device.{is_at, has_state, has_serial};
ghost use Rattle.tcmu_model.specs.Events.{unknown_serial, is_in_hand, is_losing, lose, expire, in_state, with_reply, turned, completions, expiry, is_due};
ghost use Rattle.tcmu_types.specs.Numbers.{is_among};
ghost use Rattle.tcmu_model.specs.Steps.{asked};

use delayed_commands::{COMMUNICATION_TIME_OUT, closing};
use handler_trait::Request;
use std::alloc::Global;
use std::marker::Model;
use tcmu_model::CommandState;
use tcmu_types::{Bytes, Command, Done, NoMemory, Reply, ScsiStatus, Sense};

/// What a reply says beside its bytes.
#[derive(Clone, Copy, Debug)]
pub struct ReplyHead {
    /// The handler's status byte (SAM-5, 5.3).
    pub status: ScsiStatus,
    /// Some exactly where the status is CHECK CONDITION.
    pub sense: Option<Sense>,
}

/// An unfinished command.
#[derive(Drop)]
pub struct Row {
    serial: u64,
    command: Command,
    state: CommandState,
    deadline: Option<u64>,
    expired: bool,
    head: Option<ReplyHead>,
    buffer: Bytes,
}

impl Model for Row {
    ghost use Rattle.tcmu_model.specs.Device.{Unfinished};
    ghost use Rattle.tcmu_path.specs.Kept.{reply_of, HoldsReply};

    ghost Value = { Unfinished };

    ghost view = { λ a. record { serial = a.serial; command = a.command; state = a.state; deadline = a.deadline; expired = a.expired; reply = reply_of a.head a.buffer.items } };

    ghost invariant = { λ a. HoldsReply a.command.in_len a.buffer };
}

/// Room for the completion of a command.
pub fn room_for(alloc: Global, command: &Command) -> Result<Bytes, NoMemory>
    ensures empty { IfOk result (λ room. room.items ≡ []) }
    ensures room { IfOk result (λ room. command.now.in_len ≤ room.spare) }
{
    let mut room = Bytes::new(alloc);
    room.reserve(command.in_len() as u64)?;
    Ok(room)
}

impl Row {
    /// A command that waits, with room for its completion.
    pub fn new(serial: u64, command: Command, deadline: Option<u64>, room: Bytes) -> Row
        requires empty { room.items ≡ [] }
        requires room { command.in_len ≤ room.spare }
        ensures { result ≡ record { serial = serial; command = command; state = CommandState.Waiting; deadline = deadline; expired = false; reply = None } }
    {
        Row {
            serial,
            command,
            state: CommandState::Waiting,
            deadline,
            expired: false,
            head: None,
            buffer: room,
        }
    }

    /// The serial with which it was accepted.
    pub fn serial(&self) -> u64
        ensures { result ≡ self.now.serial }
    {
        self.serial
    }

    /// The command itself.
    pub fn command(&self) -> &Command
        ensures { result.now ≡ self.now.command }
    {
        &self.command
    }

    /// What the command asks of its handler.
    pub fn request(&self, alloc: Global) -> Result<Request, NoMemory>
        ensures { IfOk result (λ r. r ≡ asked self.now.command) }
    {
        let sent = Bytes::from_slice(alloc, self.command.sent().as_slice())?;
        Ok(Request {
            cdb: self.command.cdb().copy(),
            sent,
            in_len: self.command.in_len(),
        })
    }

    /// Where it stands on its way.
    pub fn state(&self) -> CommandState
        ensures { result ≡ self.now.state }
    {
        self.state
    }

    /// Whether it has this serial and stands there.
    pub fn is_at(&self, serial: u64, state: CommandState) -> bool
        ensures { result ≡ is_at serial state self.now }
    {
        self.serial == serial && self.state.is(state)
    }

    /// Whether it expired.
    pub fn is_expired(&self) -> bool
        ensures { result ≡ self.now.expired }
    {
        self.expired
    }

    /// Moves it on.
    pub fn set_state(&mut self, state: CommandState)
        ensures { self.new ≡ in_state state self.old }
    {
        self.state = state;
    }

    /// Keeps the reply of the command's handler.
    pub fn keep(&mut self, reply: &Reply)
        requires { length reply.now.payload ≤ self.old.command.in_len }
        ensures { self.new ≡ with_reply reply.now self.old }
    {
        self.state = CommandState::Handled;
        self.head = Some(ReplyHead {
            status: reply.status,
            sense: reply.sense,
        });
        self.buffer.clear();
        self.buffer.extend(reply.payload.as_slice());
    }

    /// Whether its deadline has come, in ticks, and it is not expired yet.
    pub fn is_due(&self, now: u64) -> bool
        ensures { result ≡ is_due now self.now }
    {
        match self.deadline {
            Some(at) => !self.expired && at <= now,
            None => false,
        }
    }

    /// Marks the command expired where it is due.
    pub fn expire(&mut self, now: u64)
        ensures { self.new ≡ expire now self.old }
    {
        if self.is_due(now) {
            self.expired = true;
        }
    }

    /// Whether the command is out, handled or parked: dispatched, and its answer not placed.
    pub fn is_in_hand(&self) -> bool
        ensures { result ≡ is_in_hand self.now }
    {
        self.state.is(CommandState::Out)
            || self.state.is(CommandState::Handled)
            || self.state.is(CommandState::Parked)
    }

    /// Whether a restart takes the command.
    pub fn is_losing(&self, answered: &[u64]) -> bool
        ensures { result ≡ is_losing answered.now self.now }
    {
        self.is_in_hand() || self.state.is(CommandState::Placed) && !is_among(answered, self.serial)
    }

    /// Loses the command where a restart takes it, but keeps its answer where that was placed.
    pub fn lose(&mut self, answered: &[u64])
        ensures { self.new ≡ lose answered.now self.old }
    {
        if self.is_losing(answered) {
            if !self.state.is(CommandState::Placed) {
                self.head = None;
            }
            self.state = CommandState::Lost;
        }
    }

    /// The completion of a command whose time is over: LOGICAL UNIT COMMUNICATION TIME-OUT (SPC-4, 4.5.6).
    pub fn expiry(&self, alloc: Global) -> Done
        ensures { result ≡ expiry self.now }
    {
        closing(
            alloc,
            ScsiStatus::CHECK_CONDITION,
            Some(COMMUNICATION_TIME_OUT),
            self.serial,
            &self.command,
        )
    }

    /// The completion of a command that is answered, where it is not expired.
    pub fn into_completion(self, read_len: bool) -> Option<Done>
        ensures { option_to_list result ≡ completions read_len self }
    {
        let Row {
            serial,
            command,
            state: _,
            deadline: _,
            expired,
            head,
            mut buffer,
        } = self;
        if expired {
            return None;
        }
        let head = head?;
        if head.status != ScsiStatus::GOOD {
            buffer.clear();
        } else if !read_len {
            let missing = command.in_len() as usize - buffer.len();
            buffer.fill(0, missing);
        }
        Some(Done {
            serial,
            init: command.init().copy(),
            tag: command.tag(),
            status: head.status,
            sense: head.sense,
            payload: buffer,
        })
    }
}

/// Whether a serial stands in a list.
pub fn is_among(serials: &[u64], serial: u64) -> bool
    ensures { result ≡ is_among serials.now serial }
{
    serials.iter().any(|k| *k == serial)
}
