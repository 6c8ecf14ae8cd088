//! What a dump of a device shows.
use crate::{BlockList, Bytes, Listed};
use std::marker::Model;

/// The kind of a ring item: padding, a command, or task management (the kernel's `TCMU_OP_*`).
#[derive(Clone, Copy, Debug, Drop, PartialEq, Eq)]
pub enum ItemKind {
    Pad,
    Cmd,
    Tmr,
}

/// A ring item: its offset in the ring, and its bytes with each command id as zero.
#[derive(Debug, Drop)]
pub struct Item {
    /// Where it begins, in bytes from the ring's start; a multiple of 8.
    pub at: u32,
    /// From the low three bits of its first byte.
    pub kind: ItemKind,
    /// The whole item, its header too, with zeros for each command id.
    pub bytes: Bytes,
}

impl Model for Item {
    ghost use Rattle.tcmu_types.specs.Dumps.{ItemData};

    ghost Value = { ItemData };

    ghost view = { λ a. record { at = a.at; kind = a.kind; bytes = a.bytes.items } };
}

/// An unfinished command: its data blocks, and its payload as it stands in them.
#[derive(Debug, Drop)]
pub struct Held {
    /// From 1, in the order in which the device accepted commands.
    pub serial: u64,
    /// Numbers of data blocks, from 0, rising; none where the command carries no bytes.
    pub blocks: BlockList,
    /// As many bytes as the command sends or asks for, without the rest of its last block.
    pub payload: Bytes,
}

impl Model for Held {
    ghost use Rattle.tcmu_types.specs.Dumps.{HeldData};

    ghost Value = { HeldData };

    ghost view = { λ a. record { serial = a.serial; blocks = a.blocks.items; payload = a.payload.items } };
}

/// Ring items, in ring order.
pub type Items = Listed<Item>;

/// What commands hold, in rising serial.
pub type HeldList = Listed<Held>;

/// The mailbox's 128 bytes, the uncleared ring items in ring order, and the unfinished commands that are not Delayed, in rising
/// serial.
#[derive(Debug, Drop)]
pub struct Dump {
    /// 128 bytes, from the region's start.
    pub mailbox: Bytes,
    /// Laid and not cleared, the earliest first; task management and padding among them.
    pub items: Items,
    /// None of the commands that wait for room: these have no blocks.
    pub held: HeldList,
}

impl Model for Dump {
    ghost use Rattle.tcmu_types.specs.Dumps.{DumpData};

    ghost Value = { DumpData };

    ghost view = { λ a. record { mailbox = a.mailbox.items; items = a.items.items; held = a.held.items } };
}
