//! Replies of handlers, completions, statuses and sense data.
ghost use Rattle.std.specs.Prelude.{◌≡◌, []};
ghost use Rattle.tcmu_types.specs.SenseBytes.{fixed_sense, sense_in};
ghost use Rattle.tcmu_types.specs.Copied.{HasCopyRoom, LeavesRoom};

use crate::{Bytes, CopyRoom, Name};
use std::marker::Model;

/// A status byte (SAM-5, 5.3).
#[derive(Clone, Copy, Debug, PartialEq, Eq)]
pub struct ScsiStatus(pub u8);

impl ScsiStatus {
    pub const GOOD: ScsiStatus = ScsiStatus(0x00);

    pub const CHECK_CONDITION: ScsiStatus = ScsiStatus(0x02);

    pub const BUSY: ScsiStatus = ScsiStatus(0x08);

    pub const TASK_SET_FULL: ScsiStatus = ScsiStatus(0x28);
}

/// Sense data (SPC-4, 4.5): the key, of 0h to Fh, and the additional sense code with its qualifier.
#[derive(Clone, Copy, Debug, PartialEq, Eq)]
pub struct Sense {
    /// SENSE KEY, 0h to Fh: the low half of byte 2 of the fixed format (SPC-4, 4.5.3).
    pub key: u8,
    /// ADDITIONAL SENSE CODE: byte 12 of the fixed format (SPC-4, 4.5.3).
    pub asc: u8,
    /// ADDITIONAL SENSE CODE QUALIFIER: byte 13 of the fixed format (SPC-4, 4.5.3).
    pub ascq: u8,
}

impl Model for Sense {
    ghost use Rattle.std.specs.Prelude.{◌<◌};
    ghost use Rattle.tcmu_types.specs.Data.{SenseData};

    ghost Value = { SenseData };

    ghost view = { λ a. record { key = a.key; asc = a.asc; ascq = a.ascq } };

    ghost invariant = { λ a. a.key < 16 };

    ghost inverse = { λ s. record { key = s.key; asc = s.asc; ascq = s.ascq } };
}

/// What a handler answers: a status, sense data exactly with CHECK CONDITION, and bytes only with GOOD.
#[derive(Debug, Drop)]
pub struct Reply {
    /// The handler's status byte (SAM-5, 5.3).
    pub status: ScsiStatus,
    /// Some exactly where the status is CHECK CONDITION.
    pub sense: Option<Sense>,
    /// The data-in bytes; empty unless the status is GOOD.
    pub payload: Bytes,
}

impl Model for Reply {
    ghost use Rattle.tcmu_types.specs.Data.{ReplyData};
    ghost use Rattle.tcmu_types.specs.Rules.{IsReply};

    ghost Value = { ReplyData };

    ghost view = { λ a. record { status = a.status.0; sense = a.sense; payload = a.payload.items } };

    ghost invariant = { λ a. IsReply (record { status = a.status.0; sense = a.sense; payload = a.payload.items }) };
}

impl Reply {
    /// The same reply once more, its payload in the room.
    pub fn copied_into(&self, room: &mut CopyRoom) -> Reply
        requires { HasCopyRoom self.now.payload [] room.old }
        ensures copy { result ≡ self.now }
        ensures room { LeavesRoom self.now.payload [] room.old room.new }
    {
        Reply {
            status: self.status,
            sense: self.sense,
            payload: room.copy_bytes(self.payload.as_slice()),
        }
    }
}

/// One completion: the serial, initiator and task tag of its command, and what the initiator gets.
#[derive(Debug, Drop)]
pub struct Done {
    /// From 1, in the order in which the device accepted commands.
    pub serial: u64,
    /// The initiator that sent the command, and gets this.
    pub init: Name,
    /// The initiator's own number of the command (SAM-5); it need not be unique.
    pub tag: u32,
    /// Of the handler, or of the target where it ends the command itself (SAM-5, 5.3).
    pub status: ScsiStatus,
    /// None where the completion carries no sense data.
    pub sense: Option<Sense>,
    /// The data-in bytes, at most as many as the command asked for.
    pub payload: Bytes,
}

impl Model for Done {
    ghost use Rattle.tcmu_types.specs.Data.{DoneData};

    ghost Value = { DoneData };

    ghost view = { λ a. record { serial = a.serial; init = a.init; tag = a.tag; status = a.status.0; sense = a.sense; payload = a.payload.items } };
}

/// Fixed format sense data, 18 bytes (SPC-4, 4.5.3), without INFORMATION.
pub fn sense_bytes(sense: Sense) -> [u8; 18]
    ensures { result ≡ fixed_sense sense }
{
    [
        0x70, 0, sense.key, 0, 0, 0, 0, 0x0a, 0, 0, 0, 0, sense.asc, sense.ascq, 0, 0, 0, 0,
    ]
}

/// The sense data in a sense buffer of fixed format (SPC-4, 4.5.3): the low half of byte 2, and bytes 12 and 13.
pub fn sense_of(buffer: &[u8; 96]) -> Sense
    ensures { result ≡ sense_in buffer.now }
{
    Sense {
        key: buffer[2] % 16,
        asc: buffer[12],
        ascq: buffer[13],
    }
}
