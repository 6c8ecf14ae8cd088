//! The checks before the medium is touched.
ghost use Rattle.std.specs.Prelude.{◌≡◌, ◌≢◌, ◌+◌, ◌^◌, ◌≤◌, nat_lt, length, None, IfSome};
ghost use Rattle.scsi_model.specs.Scsi.{first_failed, range_checks, write_checks};

use handler_trait::Medium;
use scsi_model::senses::{
    INVALID_FIELD_IN_CDB, LOGICAL_BLOCK_ADDRESS_OUT_OF_RANGE, WRITE_PROTECTED,
};
use tcmu_types::Sense;

/// Whether a range does not lie in so many blocks.
pub fn is_outside(blocks: u64, lba: u64, count: u32) -> bool
    ensures { result ≡ nat_lt blocks (lba + count) }
{
    lba > blocks || u64::from(count) > blocks - lba
}

/// Why a range is refused.
pub fn range_fault(blocks: u64, lba: u64, count: u32) -> Option<Sense>
    ensures value { result ≡ first_failed (range_checks blocks lba count) }
    ensures key { IfSome result (λ s. s.key ≢ 3) }
    ensures inside { result ≡ None → lba + count ≤ blocks }
{
    if is_outside(blocks, lba, count) {
        return Some(LOGICAL_BLOCK_ADDRESS_OUT_OF_RANGE);
    }
    None
}

/// Why a write is refused, for which this many bytes have to be sent.
pub fn write_fault<M: Medium>(
    medium: &M,
    sent: &[u8],
    bytes: u64,
    lba: u64,
    count: u32,
) -> Option<Sense>
    ensures value { result ≡ first_failed (write_checks (M.state medium.now) sent.now bytes lba count) }
    ensures key { IfSome result (λ s. s.key ≢ 3) }
    ensures inside { result ≡ None → lba + count ≤ (M.state medium.now).blocks }
    ensures most { result ≡ None → lba + count ≤ 2 ^ 35 }
    ensures all { result ≡ None → length sent.now ≡ bytes }
{
    if sent.len() as u64 != bytes {
        return Some(INVALID_FIELD_IN_CDB);
    }
    if medium.protected() {
        return Some(WRITE_PROTECTED);
    }
    range_fault(medium.blocks(), lba, count)
}
