//! What a handler is asked.
ghost use Rattle.std.specs.Prelude.{◌≡◌, None, take, IfOk, MatchOption};
ghost use Rattle.tcmu_model.specs.Events.{command_out};
ghost use Rattle.region_model.specs.Iovecs.{gathered};
ghost use Rattle.region_model.specs.UserNext.{data_length};
ghost use Rattle.ring_path.specs.Requested.{HasData, data_sent};
ghost use Rattle.tcmu_path.specs.Requests.{IsRequest};

use super::State;
use handler_trait::Request;
use iovec_scatter::Parts;
use std::alloc::Global;
use tcmu_types::{Bytes, Iovs, NoMemory, takes_payload};
use user_lib::{Job, JobData};

/// How many bytes iovecs name, or the greatest number of 32 bits where they name more.
fn data_length(iovs: &Iovs) -> u32
    ensures { result ≡ data_length iovs.now.items }
{
    let most = u32::MAX as u64;
    let mut total: u64 = 0;
    for iov in iovs.as_slice() {
        total = (total + iov.len.min(most)).min(most);
    }
    total as u32
}

/// The first bytes of blocks, at most so many.
pub(super) fn first_bytes(alloc: Global, parts: &Parts, count: u32) -> Result<Bytes, NoMemory>
    ensures { IfOk result (λ bytes. bytes.items ≡ take count (gathered parts.now.items)) }
{
    let count = count as usize;
    let mut bytes = Bytes::new(alloc);
    bytes.reserve(count as u64)?;
    for part in parts.as_slice() {
        let part = part.as_slice();
        let more = part.len().min(count.saturating_sub(bytes.len()));
        bytes.extend(&part[..more]);
    }
    Ok(bytes)
}

/// What a job's command sent along.
fn data_of(alloc: Global, job: &Job) -> Result<Bytes, NoMemory>
    requires { HasData job.now }
    ensures { IfOk result (λ bytes. bytes.items ≡ data_sent job.now) }
{
    if !takes_payload(&job.cdb) {
        return Ok(Bytes::new(alloc));
    }
    match &job.carried {
        JobData::Moved(parts) => first_bytes(alloc, parts, data_length(&job.iovs)),
        JobData::Copied(_) => unreachable!(),
    }
}

impl State {
    /// The request of the command of a serial that is out. Its bytes are copied out of its job.
    pub(crate) fn request(&self, alloc: Global, serial: u64) -> Result<Option<Request>, NoMemory>
        ensures { IfOk result (λ o. MatchOption o (command_out self.entry.now.state serial ≡ None) (IsRequest self.entry.now.state serial)) }
    {
        let Some(asked) = self.hand.asked(serial) else {
            return Ok(None);
        };
        let job = asked.job();
        let sent = data_of(alloc, job)?;
        Ok(Some(Request {
            cdb: job.cdb.copy(),
            sent,
            in_len: job.in_len,
        }))
    }
}
