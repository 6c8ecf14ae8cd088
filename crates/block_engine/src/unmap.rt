//! UNMAP (SBC-3): its parameter list checked, and its ranges filled with zeros.
ghost use Rattle.std.specs.Prelude.{◌≡◌, ◌≢◌, ◌+◌, ◌*◌, ◌-◌, ◌/◌, ◌^◌, ◌≤◌, ◌<◌, length, is_err, IfOk, IfSome, None, false, []};
ghost use Rattle.std.specs.List.{sum_by, list_any};
ghost use Rattle.tcmu_types.specs.Numbered.{HasCause};
ghost use Rattle.edge.specs.Outside.{CountsFailed};
ghost use Rattle.scsi_model.specs.Scsi.{extents_from, extents_of, Unmaps, UnmapsOne, UnmapsList, ServesUnmap, list_checks, first_failed, is_beyond, is_bad_list, has_bad_lengths};
ghost use Rattle.block_engine.specs.Serving.{Served};

use crate::checks::is_outside;
use crate::replies::{after_write, done, refused};
use edge::Failed;
use handler_trait::Medium;
use scsi_model::senses::{
    INVALID_FIELD_IN_CDB, INVALID_FIELD_IN_PARAMETER_LIST, LOGICAL_BLOCK_ADDRESS_OUT_OF_RANGE,
    PARAMETER_LIST_LENGTH_ERROR, WRITE_PROTECTED,
};
use scsi_model::{Extent, MAXIMUM_UNMAP_DESCRIPTOR_COUNT, MAXIMUM_UNMAP_LBA_COUNT};
use std::alloc::Global;
use tcmu_types::big_endian::{be_u16_at, be_u32_at, be_u64_at};
use tcmu_types::{NoMemory, Reply, Sense};

/// The bytes of a parameter list before its first block descriptor (SBC-3, UNMAP).
const HEADER_BYTES: usize = 8;

/// The bytes of a block descriptor.
const DESCRIPTOR_BYTES: usize = 16;

/// The first `n` block descriptors of a parameter list.
fn extents(alloc: Global, sent: &[u8], n: usize) -> Result<Vec<Extent>, NoMemory>
    requires { 8 + 16 * n ≤ length sent.now }
    ensures { IfOk result (λ list. list.items ≡ extents_from 8 n sent.now) }
{
    let mut list = Vec::with_capacity(alloc, n)?;
    for k in 0..n {
        let at = HEADER_BYTES + DESCRIPTOR_BYTES * k;
        list.push(Extent {
            lba: be_u64_at(sent, at),
            count: be_u32_at(sent, at + 8),
        })?;
    }
    Ok(list)
}

/// How many blocks these have together.
fn total(extents: &[Extent]) -> u64
    requires { length extents.now ≤ 256 }
    ensures { result ≡ sum_by (λ e. e.count) extents.now }
{
    let mut blocks = 0;
    for extent in extents {
        blocks += u64::from(extent.count);
    }
    blocks
}

/// Whether one of these does not lie in so many blocks.
fn has_outside(blocks: u64, extents: &[Extent]) -> bool
    ensures { result ≡ list_any (is_beyond blocks) extents.now }
{
    extents
        .iter()
        .any(|extent| is_outside(blocks, extent.lba, extent.count))
}

/// Whether the lengths in the header are not those of what follows them.
fn has_bad_lengths(sent: &[u8]) -> bool
    requires { 8 ≤ length sent.now }
    ensures { result ≡ has_bad_lengths sent.now }
{
    usize::from(be_u16_at(sent, 0)) != sent.len() - 2
        || usize::from(be_u16_at(sent, 2)) != sent.len() - 8
}

/// One fill with zeros, where the range has blocks.
fn unmap_one<M: Medium>(medium: &mut M, extent: Extent) -> Result<(), Failed>
    requires { extent.lba + extent.count ≤ (M.state medium.old).blocks }
    ensures value { UnmapsOne extent (M.state medium.old) (is_err result) (M.state medium.new) }
    ensures blocks { (M.state medium.new).blocks ≡ (M.state medium.old).blocks }
    ensures cause { HasCause (M.faults medium.old) (M.faults medium.new) result }
    ensures count { CountsFailed (M.faults medium.old) (is_err result) (M.faults medium.new) }
{
    if extent.count == 0 {
        return Ok(());
    }
    // It has at most 2^35 blocks, so that the place below fits.
    let _blocks = medium.blocks();
    medium.fill(512 * extent.lba, &[0; 512], u64::from(extent.count))
}

/// Fills the ranges with zeros one after the other, up to the first that fails.
fn unmap_all<M: Medium>(medium: &mut M, extents: &[Extent]) -> Result<(), Failed>
    requires { list_any (is_beyond (M.state medium.old).blocks) extents.now ≡ false }
    ensures value { Unmaps extents.now (M.state medium.old) (is_err result) (M.state medium.new) }
    ensures cause { HasCause (M.faults medium.old) (M.faults medium.new) result }
    ensures count { CountsFailed (M.faults medium.old) (is_err result) (M.faults medium.new) }
{
    for extent in extents {
        unmap_one(medium, *extent)?;
    }
    Ok(())
}

/// Why a parameter list with these descriptors is refused.
fn list_fault<M: Medium>(medium: &M, sent: &[u8], extents: &[Extent]) -> Option<Sense>
    requires header { 8 ≤ length sent.now }
    requires listed { extents.now ≡ extents_of sent.now }
    ensures value { result ≡ first_failed (list_checks (M.state medium.now) sent.now) }
    ensures key { IfSome result (λ s. s.key ≢ 3) }
    ensures inside { result ≡ None → list_any (is_beyond (M.state medium.now).blocks) extents.now ≡ false }
{
    if has_bad_lengths(sent)
        || extents.len() > MAXIMUM_UNMAP_DESCRIPTOR_COUNT as usize
        || total(extents) > u64::from(MAXIMUM_UNMAP_LBA_COUNT)
    {
        return Some(INVALID_FIELD_IN_PARAMETER_LIST);
    }
    if medium.protected() {
        return Some(WRITE_PROTECTED);
    }
    if has_outside(medium.blocks(), extents) {
        return Some(LOGICAL_BLOCK_ADDRESS_OUT_OF_RANGE);
    }
    None
}

/// UNMAP with a parameter list: its lengths, its limits and its ranges are checked before the first is filled with zeros.
fn unmap_list<M: Medium>(alloc: Global, medium: &mut M, sent: &[u8]) -> Result<Reply, NoMemory>
    ensures { Served (UnmapsList (M.state medium.old) sent.now) 0 (M.state medium.old) (M.state medium.new) (M.faults medium.old) (M.faults medium.new) result }
{
    if sent.len() < HEADER_BYTES {
        return Ok(refused(alloc, PARAMETER_LIST_LENGTH_ERROR));
    }
    let extents = extents(alloc, sent, (sent.len() - HEADER_BYTES) / DESCRIPTOR_BYTES)?;
    match list_fault(medium, sent, &extents) {
        Some(sense) => Ok(refused(alloc, sense)),
        None => {
            let outcome = unmap_all(medium, &extents);
            Ok(after_write(alloc, outcome))
        }
    }
}

/// UNMAP: what is sent has to have the length that the command names, and none unmaps nothing. All ranges are checked before the
/// first is filled with zeros; the fills stop at the first that fails.
pub fn unmap<M: Medium>(
    alloc: Global,
    medium: &mut M,
    length: u32,
    sent: &[u8],
) -> Result<Reply, NoMemory>
    ensures { Served (ServesUnmap (M.state medium.old) length sent.now) 0 (M.state medium.old) (M.state medium.new) (M.faults medium.old) (M.faults medium.new) result }
{
    if sent.len() as u64 != u64::from(length) {
        return Ok(refused(alloc, INVALID_FIELD_IN_CDB));
    }
    if length == 0 {
        return Ok(done(alloc));
    }
    unmap_list(alloc, medium, sent)
}
