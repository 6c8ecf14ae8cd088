//! Completions.
ghost use Rattle.std.specs.Prelude.{◌≡◌, ◌≤◌, take, if◌then◌else◌};
ghost use Rattle.region_model.specs.Areas.{bytes_along};
ghost use Rattle.region_model.specs.Regions.{size_of};
ghost use Rattle.region_model.specs.TargetSteps.{checked, closed};
ghost use Rattle.region_model.specs.TargetCleans.{completion_read, length_told, reset_log, sense_read};

use delayed_commands::{COMMUNICATION_TIME_OUT, INTERNAL_TARGET_FAILURE, ending, reset_ending};
use entry_codec::Response;
use shm_region::Region;
use std::alloc::Global;
use target_table::Pending;
use tcmu_types::{Bytes, Done, ScsiStatus, Sense, sense_of};

/// The completion of a command with a status and sense data, and no bytes.
fn closed(alloc: Global, status: ScsiStatus, sense: Option<Sense>, pending: &Pending) -> Done
    ensures { result ≡ closed status.0 sense pending.now }
{
    ending(
        alloc,
        status,
        sense,
        pending.serial,
        &pending.init,
        pending.tag,
    )
}

/// The completion of a command that has expired.
pub(crate) fn expiry(alloc: Global, pending: &Pending) -> Done
    ensures { result ≡ checked 0x0b 0x08 0x01 pending.now }
{
    closed(
        alloc,
        ScsiStatus::CHECK_CONDITION,
        Some(COMMUNICATION_TIME_OUT),
        pending,
    )
}

/// The completion of a command whose entry the user side did not know.
fn failure(alloc: Global, pending: &Pending) -> Done
    ensures { result ≡ checked 0x04 0x44 0x00 pending.now }
{
    closed(
        alloc,
        ScsiStatus::CHECK_CONDITION,
        Some(INTERNAL_TARGET_FAILURE),
        pending,
    )
}

/// The completion of a command that a reset of a level ends.
pub(crate) fn reset_log(alloc: Global, level: u8, pending: &Pending) -> Done
    ensures { result ≡ reset_log level pending.now }
{
    reset_ending(alloc, level, pending.serial, &pending.init, pending.tag)
}

/// How many bytes count of a response to a command that asked for `in_len`.
fn length_told(response: &Response, in_len: u32) -> u32
    ensures value { result ≡ length_told response.now in_len }
    ensures most { result ≤ in_len }
{
    if response.uflags / 2 % 2 == 0 {
        in_len
    } else {
        in_len.min(response.read_len)
    }
}

/// The sense data of a response.
fn sense_read(response: &Response) -> Option<Sense>
    ensures { result ≡ sense_read response.now }
{
    if response.status == 2 {
        Some(sense_of(&response.sense))
    } else {
        None
    }
}

/// The first bytes along the blocks of a command, as many as its response says, in the room that was taken for them.
fn payload_read(region: &Region, pending: Pending, response: &Response) -> Bytes
    ensures { result.items ≡ take (length_told response.now pending.in_len) (bytes_along (size_of region.now) region.now.blocks pending.blocks) }
{
    let count = length_told(response, pending.in_len) as usize;
    let mut payload = pending.buffer;
    payload.clear();
    region.read_blocks(&pending.blocks, count, &mut payload);
    payload
}

/// The completion of a command by its response, with the bytes along the command's own blocks.
pub(crate) fn completion(
    alloc: Global,
    region: &Region,
    pending: Pending,
    response: &Response,
) -> Done
    ensures { result ≡ completion_read (size_of region.now) region.now.blocks pending response.now }
{
    if response.uflags % 2 == 1 {
        return failure(alloc, &pending);
    }
    let status = ScsiStatus(response.status);
    let mut done = closed(alloc, status, sense_read(response), &pending);
    if response.status == 0 {
        done.payload = payload_read(region, pending, response);
    }
    done
}
