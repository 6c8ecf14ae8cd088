//! The READ(10) or WRITE(10) that each number of a load stands for.
ghost use Rattle.std.specs.Prelude.{◌≡◌, ◌⊎◌, ◌*◌, replicate, IfOk, codes, true};
ghost use Rattle.tcmu_types.specs.Data.{CommandData};
ghost use Rattle.tcmu_types.specs.Rules.{is_sendable};
ghost use Rattle.text_model.specs.Load.{load_cdb, load_command, load_fill, load_count};

use crate::numbers::{load_count, load_fill, load_lba, load_writes};
use std::alloc::Global;
use tcmu_types::opcode::{READ_10, WRITE_10};
use tcmu_types::{Bytes, Cdb, Command, LOGICAL_BLOCK, Name, NoMemory};

/// READ(10) or WRITE(10), by its operation code.
#[tactic(auto, unfolding(text_model::specs::Load::load_cdb))]
fn cdb_of(code: u8, place: u32, count: u16) -> Cdb
    requires { (code ≡ 0x28) ⊎ (code ≡ 0x2a) }
    ensures { result ≡ load_cdb code place count }
{
    let [p0, p1, p2, p3] = place.to_be_bytes();
    let [c0, c1] = count.to_be_bytes();
    match Cdb::new(&[code, 0, p0, p1, p2, p3, 0, c0, c1, 0]) {
        Ok(cdb) => cdb,
        Err(_) => unreachable!(),
    }
}

/// The name of the initiator that sends the load.
pub fn initiator() -> Name
    ensures { result ≡ codes "a" }
{
    Name::new("a").unwrap()
}

/// Blocks that are all of one byte.
fn filled(alloc: Global, byte: u8, count: u16) -> Result<Bytes, NoMemory>
    ensures { IfOk result (λ b. b.items ≡ replicate (count * 512) byte) }
{
    let mut bytes = Bytes::new(alloc);
    let length = usize::from(count) * LOGICAL_BLOCK as usize;
    bytes.reserve(length as u64)?;
    bytes.fill(byte, length);
    Ok(bytes)
}

/// A command of the load's initiator.
fn command_of(tag: u32, cdb: Cdb, sent: Bytes, in_len: u32) -> Command
    requires { let c : CommandData = record { init = codes "a"; tag = tag; cdb = cdb; sent = sent.items; in_len = in_len } in is_sendable c ≡ true }
    ensures { let c : CommandData = record { init = codes "a"; tag = tag; cdb = cdb; sent = sent.items; in_len = in_len } in result ≡ c }
{
    Command::new(initiator(), tag, cdb, sent, in_len).unwrap()
}

/// The command of this task tag that a number asks for.
#[tactic(auto, unfolding(text_model::specs::Load::load_command))]
pub fn load_command(alloc: Global, tag: u32, x: u64) -> Result<Command, NoMemory>
    ensures { IfOk result (λ c. c ≡ load_command tag x) }
{
    let count = load_count(x);
    let lba = load_lba(x);
    if load_writes(x) {
        let sent = filled(alloc, load_fill(x), count)?;
        let cdb = cdb_of(WRITE_10, lba, count);
        return Ok(command_of(tag, cdb, sent, 0));
    }
    let in_len = u32::from(count) * LOGICAL_BLOCK;
    let cdb = cdb_of(READ_10, lba, count);
    Ok(command_of(tag, cdb, Bytes::new(alloc), in_len))
}
