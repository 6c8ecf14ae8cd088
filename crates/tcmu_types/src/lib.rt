//! Plain data of the SCSI target and of its user side: lists with reserved room, names, command descriptor blocks,
//! commands, replies, completions, settings, and a device's events with their answers.
#![tactic(auto)]

mod answer;
pub mod big_endian;
mod cdb;
mod command;
mod copies;
mod dump;
mod event;
mod iovec;
mod laws;
mod list;
pub mod little_endian;
mod name;
pub mod opcode;
mod reply;
mod settings;
mod sizes;
mod stat;

pub use answer::{Answer, Dispatch, Enter, Handle, Publish, Reset, Respond, Submit, Tmr};
pub use cdb::{Cdb, CdbLength, group_length, takes_payload};
pub use command::Command;
pub use copies::{copy_out, overwrite};
pub use dump::{Dump, Held, HeldList, Item, ItemKind, Items};
pub use event::{Entry, Event};
pub use iovec::{Iov, Iovs};
pub use laws::sense_law;
pub use list::{BlockList, Bytes, CopyRoom, Ids, Listed, NoMemory, Serials, Words};
pub use name::Name;
pub use reply::{Done, Reply, ScsiStatus, Sense, sense_bytes, sense_of};
pub use settings::{Flags, Settings};
pub use sizes::{LOGICAL_BLOCK, MOST_PAYLOAD, MOST_RING, PAGE};
pub use stat::{Stat, Todo};
