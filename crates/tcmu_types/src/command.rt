//! Commands as their initiators send them.
ghost use Rattle.std.specs.Prelude.{◌≡◌, ◌≤◌, ◌<◌, ◌==◌, if◌then◌else◌, Some, None, [], IfOk, length};
ghost use Rattle.tcmu_types.specs.Data.{CommandData};
ghost use Rattle.tcmu_types.specs.Copied.{HasCopyRoom, LeavesRoom};
ghost use Rattle.tcmu_types.specs.Rules.{IsCommand, is_sendable, takes_payload, payload_length};

use crate::{Bytes, Cdb, CopyRoom, MOST_PAYLOAD, Name, NoMemory, takes_payload};
use std::alloc::Global;
use std::marker::Model;

/// A SCSI command: its initiator and task tag (SAM-5), its command descriptor block, the bytes sent with it, and how many bytes
/// it asks for. Data goes in one direction alone.
#[derive(Debug, Drop)]
pub struct Command {
    init: Name,
    tag: u32,
    cdb: Cdb,
    sent: Bytes,
    in_len: u32,
}

impl Model for Command {
    ghost use Rattle.tcmu_types.specs.Data.{CommandData};
    ghost use Rattle.tcmu_types.specs.Rules.{IsCommand};

    ghost Value = { CommandData };

    ghost view = { λ a. record { init = a.init; tag = a.tag; cdb = a.cdb; sent = a.sent.items; in_len = a.in_len } };

    ghost invariant = { λ a. IsCommand (record { init = a.init; tag = a.tag; cdb = a.cdb; sent = a.sent.items; in_len = a.in_len }) };
}

impl Command {
    /// None exactly where bytes are sent and the operation code takes none, where bytes are asked for and it takes some, or where
    /// either length is over 1,048,576 bytes.
    pub fn new(init: Name, tag: u32, cdb: Cdb, sent: Bytes, in_len: u32) -> Option<Command>
        ensures { let c : CommandData = record { init = init; tag = tag; cdb = cdb; sent = sent.items; in_len = in_len } in
            result ≡ (if is_sendable c then Some c else None) }
    {
        // what this call ensures is used: a name keeps its rule
        let _name = init.as_bytes();
        let sends = takes_payload(&cdb);
        if sends && in_len > 0 || !sends && sent.len() > 0 {
            return None;
        }
        if sent.len() > MOST_PAYLOAD as usize || in_len > MOST_PAYLOAD {
            return None;
        }
        Some(Command {
            init,
            tag,
            cdb,
            sent,
            in_len,
        })
    }

    /// The initiator that sent it.
    pub fn init(&self) -> &Name
        ensures { result.now ≡ self.now.init }
    {
        &self.init
    }

    /// Its task tag (SAM-5).
    pub fn tag(&self) -> u32
        ensures { result ≡ self.now.tag }
    {
        self.tag
    }

    /// Its command descriptor block.
    pub fn cdb(&self) -> &Cdb
        ensures value { result.now ≡ self.now.cdb }
        ensures sound { IsCommand self.now }
    {
        &self.cdb
    }

    /// The bytes that its initiator sent with it.
    pub fn sent(&self) -> &Bytes
        ensures { result.now.items ≡ self.now.sent }
    {
        &self.sent
    }

    /// How many bytes the command asks for.
    pub fn in_len(&self) -> u32
        ensures { result ≡ self.now.in_len }
    {
        self.in_len
    }

    /// How many bytes the command carries, in its one direction.
    pub fn payload_length(&self) -> u32
        ensures value { result ≡ payload_length self.now }
        ensures most { result ≤ 1048576 }
    {
        if takes_payload(&self.cdb) {
            self.sent.len() as u32
        } else {
            self.in_len
        }
    }

    /// The same command once more.
    pub fn try_clone(&self, alloc: Global) -> Result<Command, NoMemory>
        ensures { IfOk result (λ c. c ≡ self.now) }
    {
        let sent = Bytes::from_slice(alloc, self.sent.as_slice())?;
        Ok(Command {
            init: self.init.copy(),
            tag: self.tag,
            cdb: self.cdb.copy(),
            sent,
            in_len: self.in_len,
        })
    }
    /// The same command once more, the bytes sent with it in the room.
    pub fn copied_into(&self, room: &mut CopyRoom) -> Command
        requires { HasCopyRoom self.now.sent [] room.old }
        ensures copy { result ≡ self.now }
        ensures room { LeavesRoom self.now.sent [] room.old room.new }
    {
        Command {
            init: self.init.copy(),
            tag: self.tag,
            cdb: self.cdb.copy(),
            sent: room.copy_bytes(self.sent.as_slice()),
            in_len: self.in_len,
        }
    }
}
