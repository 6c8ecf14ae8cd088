//! READ, WRITE, SYNCHRONIZE CACHE and WRITE SAME.
ghost use Rattle.std.specs.Prelude.{◌≡◌, ◌+◌, ◌*◌, ◌%◌, ◌≤◌, ◌<◌, length, is_err, IfOk, replicate, []};
ghost use Rattle.tcmu_types.specs.Numbered.{HasCause};
ghost use Rattle.edge.specs.Outside.{CountsFailed};
ghost use Rattle.scsi_model.specs.Medium.{Reads, Fills};
ghost use Rattle.scsi_model.specs.Scsi.{ReadsBytes, ServesRead, WritesBytes, ServesWrite, ServesSync, ServesWriteSame, Calls};
ghost use Rattle.scsi_model.specs.Senses.{write_error};
ghost use Rattle.block_engine.specs.Serving.{Served};

use crate::checks::{range_fault, write_fault};
use crate::replies::{after_call, after_write, done, refused};
use edge::Failed;
use handler_trait::Medium;
use scsi_model::senses::UNRECOVERED_READ_ERROR;
use std::alloc::Global;
use tcmu_types::{Bytes, NoMemory, Reply};

/// So many zeros, to be read over.
pub fn zeros(alloc: Global, n: usize) -> Result<Vec<u8>, NoMemory>
    ensures { IfOk result (λ v. v.items ≡ replicate n 0) }
{
    let mut bytes = Vec::new(alloc);
    bytes.resize(n, 0)?;
    Ok(bytes)
}

/// Fills a vector with the bytes from `at` on.
pub fn read_into<M: Medium>(medium: &mut M, at: u64, into: &mut Vec<u8>) -> Result<(), Failed>
    requires { at + length into.old.items ≤ 512 * (M.state medium.old).blocks }
    ensures reads { Reads at into.new.items (M.state medium.old) (is_err result) (M.state medium.new) }
    ensures length { length into.new.items ≡ length into.old.items }
    ensures blocks { (M.state medium.new).blocks ≡ (M.state medium.old).blocks }
    ensures cause { HasCause (M.faults medium.old) (M.faults medium.new) result }
    ensures count { CountsFailed (M.faults medium.old) (is_err result) (M.faults medium.new) }
{
    medium.read(at, into)
}

/// Reads so many bytes by one read, or makes no call where there is none to be answered.
fn read_bytes<M: Medium>(
    alloc: Global,
    medium: &mut M,
    at: u64,
    n: u64,
    in_len: u32,
) -> Result<Reply, NoMemory>
    requires inside { at + n ≤ 512 * (M.state medium.old).blocks }
    requires fits { n ≤ in_len }
    ensures { Served (ReadsBytes (M.state medium.old) at n) in_len (M.state medium.old) (M.state medium.new) (M.faults medium.old) (M.faults medium.new) result }
{
    if n == 0 {
        return Ok(done(alloc));
    }
    let mut bytes = zeros(alloc, n as usize)?;
    let outcome = read_into(medium, at, &mut bytes);
    let payload = Bytes::from_vec(bytes);
    Ok(after_call(alloc, outcome, payload, UNRECOVERED_READ_ERROR))
}

/// READ: the bytes of the blocks, cut to what may be answered. A range outside is refused; where no byte is to be answered, the medium
/// is not asked.
pub fn read<M: Medium>(
    alloc: Global,
    medium: &mut M,
    lba: u64,
    count: u32,
    in_len: u32,
) -> Result<Reply, NoMemory>
    ensures { Served (ServesRead (M.state medium.old) lba count in_len) in_len (M.state medium.old) (M.state medium.new) (M.faults medium.old) (M.faults medium.new) result }
{
    match range_fault(medium.blocks(), lba, count) {
        Some(sense) => Ok(refused(alloc, sense)),
        None => {
            let n = (512 * u64::from(count)).min(u64::from(in_len));
            read_bytes(alloc, medium, 512 * lba, n, in_len)
        }
    }
}

/// Writes what was sent by one write, or makes no call where nothing was sent.
fn write_bytes<M: Medium>(
    alloc: Global,
    medium: &mut M,
    at: u64,
    sent: &[u8],
) -> Result<Reply, NoMemory>
    requires inside { at + length sent.now ≤ 512 * (M.state medium.old).blocks }
    requires start { at % 512 ≡ 0 }
    requires whole { length sent.now % 512 ≡ 0 }
    ensures { Served (WritesBytes (M.state medium.old) at sent.now) 0 (M.state medium.old) (M.state medium.new) (M.faults medium.old) (M.faults medium.new) result }
{
    if sent.len() == 0 {
        return Ok(done(alloc));
    }
    let outcome = medium.write(at, sent);
    Ok(after_write(alloc, outcome))
}

/// WRITE: what is sent has to be the bytes of so many blocks. A wrong length is refused first, then a protected medium, then a range
/// outside; no blocks are a good write that makes no call of the medium.
pub fn write<M: Medium>(
    alloc: Global,
    medium: &mut M,
    lba: u64,
    count: u32,
    sent: &[u8],
) -> Result<Reply, NoMemory>
    ensures { Served (ServesWrite (M.state medium.old) lba count sent.now) 0 (M.state medium.old) (M.state medium.new) (M.faults medium.old) (M.faults medium.new) result }
{
    match write_fault(medium, sent, 512 * u64::from(count), lba, count) {
        Some(sense) => Ok(refused(alloc, sense)),
        None => write_bytes(alloc, medium, 512 * lba, sent),
    }
}

/// SYNCHRONIZE CACHE: one sync of the whole medium, where the range lies in it, also for no blocks.
pub fn sync<M: Medium>(
    alloc: Global,
    medium: &mut M,
    lba: u64,
    count: u32,
) -> Result<Reply, NoMemory>
    ensures { Served (ServesSync (M.state medium.old) lba count) 0 (M.state medium.old) (M.state medium.new) (M.faults medium.old) (M.faults medium.new) result }
{
    if let Some(sense) = range_fault(medium.blocks(), lba, count) {
        return Ok(refused(alloc, sense));
    }
    let outcome = medium.sync();
    Ok(after_write(alloc, outcome))
}

/// The one block that was sent.
fn block_of(sent: &[u8]) -> [u8; 512]
    requires { length sent.now ≡ 512 }
    ensures { result ≡ sent.now }
{
    let mut block = [0; 512];
    block.copy_from_slice(sent);
    block
}

/// Fills so many blocks with the one that was sent, by one fill.
fn fill_blocks<M: Medium>(
    alloc: Global,
    medium: &mut M,
    at: u64,
    count: u32,
    sent: &[u8],
) -> Result<Reply, NoMemory>
    requires inside { at + 512 * count ≤ 512 * (M.state medium.old).blocks }
    requires start { at % 512 ≡ 0 }
    requires some { 0 < count }
    requires fits { length sent.now ≡ 512 }
    ensures { Served (Calls (Fills at sent.now count (M.state medium.old)) write_error []) 0 (M.state medium.old) (M.state medium.new) (M.faults medium.old) (M.faults medium.new) result }
{
    let block = block_of(sent);
    let outcome = medium.fill(at, &block, u64::from(count));
    Ok(after_write(alloc, outcome))
}

/// WRITE SAME: one block is sent, and one fill writes it to each block of the range. It is refused as WRITE is.
pub fn write_same<M: Medium>(
    alloc: Global,
    medium: &mut M,
    lba: u64,
    count: u32,
    sent: &[u8],
) -> Result<Reply, NoMemory>
    requires some { 0 < count }
    ensures { Served (ServesWriteSame (M.state medium.old) lba count sent.now) 0 (M.state medium.old) (M.state medium.new) (M.faults medium.old) (M.faults medium.new) result }
{
    match write_fault(medium, sent, 512, lba, count) {
        Some(sense) => Ok(refused(alloc, sense)),
        None => fill_blocks(alloc, medium, 512 * lba, count, sent),
    }
}
