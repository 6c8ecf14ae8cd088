//! The replies that an engine gives: GOOD with a payload, and CHECK CONDITION with sense data.
ghost use Rattle.std.specs.Prelude.{◌≡◌, is_err, if◌then◌else◌, IfOk, take, []};
ghost use Rattle.scsi_model.specs.Scsi.{good, refused, cut};
ghost use Rattle.scsi_model.specs.Senses.{write_error};

use edge::Failed;
use scsi_model::senses::WRITE_ERROR;
use std::alloc::Global;
use tcmu_types::{Bytes, NoMemory, Reply, ScsiStatus, Sense};

/// GOOD with these bytes.
pub fn good(payload: Bytes) -> Reply
    ensures { result ≡ good payload.items }
{
    Reply {
        status: ScsiStatus::GOOD,
        sense: None,
        payload,
    }
}

/// GOOD without bytes.
pub fn done(alloc: Global) -> Reply
    ensures { result ≡ good [] }
{
    good(Bytes::new(alloc))
}

/// CHECK CONDITION with these sense data, and no bytes.
pub fn refused(alloc: Global, sense: Sense) -> Reply
    ensures { result ≡ refused sense }
{
    Reply {
        status: ScsiStatus::CHECK_CONDITION,
        sense: Some(sense),
        payload: Bytes::new(alloc),
    }
}

/// The reply after a call of the medium: good with this payload, or refused with this sense data where the call failed.
pub fn after_call(alloc: Global, outcome: Result<(), Failed>, payload: Bytes, sense: Sense) -> Reply
    ensures { result ≡ (if is_err outcome then refused sense else good payload.items) }
{
    match outcome {
        Ok(()) => good(payload),
        Err(Failed) => refused(alloc, sense),
    }
}

/// The reply after a write, a fill or a sync of the medium: GOOD without bytes, or refused with a write error where the call failed.
pub fn after_write(alloc: Global, outcome: Result<(), Failed>) -> Reply
    ensures { result ≡ (if is_err outcome then refused write_error else good []) }
{
    after_call(alloc, outcome, Bytes::new(alloc), WRITE_ERROR)
}

/// A good reply of these bytes, cut to an allocation length and then to the length that may be answered.
pub fn cut(alloc: Global, bytes: &[u8], limit: u32, in_len: u32) -> Result<Reply, NoMemory>
    ensures { IfOk result (λ r. r ≡ good (cut limit in_len bytes.now)) }
{
    let n = bytes.len().min(limit as usize).min(in_len as usize);
    Ok(good(Bytes::from_slice(alloc, &bytes[..n])?))
}

/// A good reply of these bytes, cut to the length that may be answered.
pub fn front(alloc: Global, bytes: &[u8], in_len: u32) -> Result<Reply, NoMemory>
    ensures { IfOk result (λ r. r ≡ good (take in_len bytes.now)) }
{
    let n = bytes.len().min(in_len as usize);
    Ok(good(Bytes::from_slice(alloc, &bytes[..n])?))
}
