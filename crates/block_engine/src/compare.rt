//! COMPARE AND WRITE (SBC-3).
ghost use Rattle.std.specs.Prelude.{◌≡◌, ◌+◌, ◌*◌, ◌%◌, ◌≤◌, ◌<◌, length, true};
ghost use Rattle.tcmu_types.specs.Numbered.{Rose};
ghost use Rattle.edge.specs.Outside.{CountsFailed};
ghost use Rattle.scsi_model.specs.Scsi.{ComparesBytes, ComparesBlocks, ServesCompareWrite, Compared, is_medium_error};
ghost use Rattle.block_engine.specs.Serving.{Served};

use crate::blocks::{read_into, zeros};
use crate::checks::write_fault;
use crate::replies::{after_write, done, refused};
use handler_trait::Medium;
use scsi_model::senses::{MISCOMPARE_DURING_VERIFY_OPERATION, UNRECOVERED_READ_ERROR};
use std::alloc::Global;
use tcmu_types::{NoMemory, Reply};

/// Writes what was sent behind the first `n` bytes, where these are what was read.
fn write_second<M: Medium>(
    alloc: Global,
    medium: &mut M,
    at: u64,
    n: u64,
    sent: &[u8],
    read: &[u8],
) -> Reply
    requires inside { at + n ≤ 512 * (M.state medium.old).blocks }
    requires start { at % 512 ≡ 0 }
    requires whole { n % 512 ≡ 0 }
    requires some { 0 < n }
    requires both { length sent.now ≡ 2 * n }
    ensures allowed { Compared (M.state medium.old) at n sent.now read.now result (M.state medium.new) }
    ensures caused { is_medium_error result.sense ≡ true → Rose (M.faults medium.old) (M.faults medium.new) }
    ensures exact { CountsFailed (M.faults medium.old) (is_medium_error result.sense) (M.faults medium.new) }
    ensures later { M.faults medium.old ≤ M.faults medium.new }
    ensures empty { length result.payload ≡ 0 }
{
    let n = n as usize;
    if read != &sent[..n] {
        return refused(alloc, MISCOMPARE_DURING_VERIFY_OPERATION);
    }
    let outcome = medium.write(at, &sent[n..]);
    after_write(alloc, outcome)
}

/// Reads `n` bytes by one read, and writes the second half of what was sent where they are its first half.
fn compare_bytes<M: Medium>(
    alloc: Global,
    medium: &mut M,
    at: u64,
    n: u64,
    sent: &[u8],
) -> Result<Reply, NoMemory>
    requires inside { at + n ≤ 512 * (M.state medium.old).blocks }
    requires start { at % 512 ≡ 0 }
    requires whole { n % 512 ≡ 0 }
    requires some { 0 < n }
    requires both { length sent.now ≡ 2 * n }
    ensures { Served (ComparesBytes (M.state medium.old) at n sent.now) 0 (M.state medium.old) (M.state medium.new) (M.faults medium.old) (M.faults medium.new) result }
{
    let mut bytes = zeros(alloc, n as usize)?;
    match read_into(medium, at, &mut bytes) {
        Ok(()) => Ok(write_second(alloc, medium, at, n, sent, &bytes)),
        Err(_) => Ok(refused(alloc, UNRECOVERED_READ_ERROR)),
    }
}

/// Compares so many blocks; for none, GOOD without a call.
fn compare_blocks<M: Medium>(
    alloc: Global,
    medium: &mut M,
    at: u64,
    count: u32,
    sent: &[u8],
) -> Result<Reply, NoMemory>
    requires inside { at + 512 * count ≤ 512 * (M.state medium.old).blocks }
    requires start { at % 512 ≡ 0 }
    requires both { length sent.now ≡ 2 * (512 * count) }
    ensures { Served (ComparesBlocks (M.state medium.old) at count sent.now) 0 (M.state medium.old) (M.state medium.new) (M.faults medium.old) (M.faults medium.new) result }
{
    if count == 0 {
        return Ok(done(alloc));
    }
    compare_bytes(alloc, medium, at, 512 * u64::from(count), sent)
}

/// COMPARE AND WRITE: the first half of what is sent is compared with the blocks of the range, and the second half is written over
/// them where both are equal. It is refused as WRITE is.
pub fn compare_write<M: Medium>(
    alloc: Global,
    medium: &mut M,
    lba: u64,
    count: u32,
    sent: &[u8],
) -> Result<Reply, NoMemory>
    ensures { Served (ServesCompareWrite (M.state medium.old) lba count sent.now) 0 (M.state medium.old) (M.state medium.new) (M.faults medium.old) (M.faults medium.new) result }
{
    let bytes = 2 * (512 * u64::from(count));
    match write_fault(medium, sent, bytes, lba, count) {
        Some(sense) => Ok(refused(alloc, sense)),
        None => compare_blocks(alloc, medium, 512 * lba, count, sent),
    }
}
