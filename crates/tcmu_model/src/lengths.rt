//! The lengths of a command: its data blocks and its entry in the ring.
ghost use Rattle.std.specs.Prelude.{◌≡◌, ◌≤◌, ◌<◌, ◌*◌, ◌^◌};
ghost use Rattle.tcmu_model.specs.Lengths.{blocks_of, entry_length, tmr_length};

use tcmu_types::{Command, PAGE};

/// How many data blocks of so many pages of 4096 bytes hold the command's payload.
pub fn blocks_of(command: &Command, pages: u32) -> u32
    requires low { 1 ≤ pages }
    requires high { pages ≤ 16 }
    ensures value { result ≡ blocks_of pages command.now }
    ensures most { result ≤ 256 }
{
    command.payload_length().div_ceil(PAGE * pages)
}

/// How long the command's entry in the ring is, in bytes.
pub fn entry_length(command: &Command, pages: u32) -> u32
    requires low { 1 ≤ pages }
    requires high { pages ≤ 16 }
    ensures value { result ≡ entry_length pages command.now }
    ensures least { 112 ≤ result }
    ensures most { result ≤ 4160 }
{
    let fixed = (48 + 16 * blocks_of(command, pages)).max(112);
    let cdb = command.cdb().as_bytes().len() as u32;
    fixed + cdb.div_ceil(8) * 8
}

/// How long a task management entry that names `count` commands by their ids is, in bytes: a multiple of 8.
pub fn tmr_length(count: u32) -> u32
    requires { count < 2 ^ 30 }
    ensures { result ≡ tmr_length count }
{
    (32 + 2 * count).div_ceil(8) * 8
}
