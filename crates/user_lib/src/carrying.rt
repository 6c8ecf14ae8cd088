//! What a job takes out of the region: its iovecs, and their blocks or a copy of their bytes.
ghost use Rattle.std.specs.Prelude.{◌≡◌, ◌≤◌, ◌+◌, ◌*◌, true, length, IfOk, OnOk, OnErr, if◌then◌else◌};
ghost use Rattle.tcmu_types.specs.Rules.{takes_payload};
ghost use Rattle.region_model.specs.Layout.{ring_start};
ghost use Rattle.region_model.specs.UserSteps.{lie_in_area};
ghost use Rattle.region_model.specs.UserNext.{carried_by, copied_data, data_length, iovs_in, region_lent};
ghost use Rattle.user_lib.specs.Carrying.{LendsParts, carried_of};

use crate::JobData;
use entry_codec::read_iov;
use iovec_scatter::Parts;
use shm_region::Region;
use std::alloc::Global;
use tcmu_types::{Bytes, Cdb, Iovs, NoMemory, takes_payload};

/// The first `count` iovecs of the command's entry at a ring offset.
pub(crate) fn read_iovs(alloc: Global, front: &[u8], at: u32, count: u32) -> Result<Iovs, NoMemory>
    requires { ring_start + at + 48 + 16 * count ≤ length front.now }
    ensures { IfOk result (λ iovs. iovs.items ≡ iovs_in front.now (ring_start + at) 0 count) }
{
    let mut iovs = Iovs::new(alloc);
    iovs.reserve(count as u64)?;
    for index in 0..count {
        iovs.push(read_iov(front, at, index));
    }
    Ok(iovs)
}

/// How many bytes iovecs name, or the greatest number of 32 bits where they name more.
fn data_length(iovs: &Iovs) -> u32
    ensures { result ≡ data_length iovs.now.items }
{
    let most = u32::MAX as u64;
    let mut total: u64 = 0;
    for iov in iovs.as_slice() {
        total = (total + iov.len.min(most)).min(most);
    }
    total as u32
}

/// How many bytes a command's answer may have: as many as its iovecs name, and none where it takes bytes along.
pub(crate) fn answer_length(iovs: &Iovs, cdb: &Cdb) -> u32
    ensures { result ≡ (if takes_payload cdb.now then 0 else data_length iovs.now.items) }
{
    if takes_payload(cdb) {
        0
    } else {
        data_length(iovs)
    }
}

/// The bytes that a command takes along, copied out of the region; none where it takes none.
fn copied_data(alloc: Global, region: &Region, iovs: &Iovs, cdb: &Cdb) -> Result<Bytes, NoMemory>
    requires { lie_in_area region.now iovs.now.items ≡ true }
    ensures { IfOk result (λ bytes. bytes.items ≡ copied_data region.now iovs.now.items cdb.now) }
{
    if !takes_payload(cdb) {
        return Ok(Bytes::new(alloc));
    }
    let mut bytes = vec![in alloc; 0; data_length(iovs) as usize]?;
    region.copy_out(iovs, &mut bytes);
    Ok(Bytes::from_vec(bytes))
}

/// Moves the blocks of iovecs out of the region; None where they can't be lent.
fn lend_blocks(alloc: Global, region: &mut Region, iovs: &Iovs) -> Result<Option<Parts>, NoMemory>
    ensures lent { IfOk result (λ parts. LendsParts region.old iovs.now.items parts region.new) }
    ensures region { OnErr result (region.new ≡ region.old) }
{
    let Some(room) = region.room_for(iovs) else {
        return Ok(None);
    };
    let mut parts = Parts::new(alloc);
    parts.reserve(room)?;
    if region.lend(iovs, &mut parts) {
        Ok(Some(parts))
    } else {
        Ok(None)
    }
}

/// Moves the blocks of iovecs out of the region where they can be lent, and else copies what the command takes along.
pub(crate) fn carry(
    alloc: Global,
    region: &mut Region,
    iovs: &Iovs,
    cdb: &Cdb,
) -> Result<JobData, NoMemory>
    requires { lie_in_area region.old iovs.now.items ≡ true }
    ensures data { IfOk result (λ d. carried_of d ≡ carried_by region.old iovs.now.items cdb.now) }
    ensures lent { OnOk result (region.new ≡ region_lent region.old iovs.now.items) }
    ensures region { OnErr result (region.new ≡ region.old) }
{
    match lend_blocks(alloc, region, iovs)? {
        Some(parts) => Ok(JobData::Moved(parts)),
        None => Ok(JobData::Copied(copied_data(alloc, region, iovs, cdb)?)),
    }
}
