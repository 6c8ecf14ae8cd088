//! The picture of a device over a region: its mailbox, its ring, and what its commands hold.
ghost use Rattle.std.specs.Prelude.{◌≡◌, ℕ, ◌≤◌, length, nat_lt, None, Some, take, IfOk, MatchOption, option_copied, option_map};
ghost use Rattle.tcmu_types.specs.Lists.{first_of};
ghost use Rattle.region_model.specs.Picture.{picture_of, shown_command};
ghost use Rattle.ring_path.specs.Dumped.{HasLength, HasLengths, bytes_kept, carried_bytes, held_read, job_kept};

use super::State;
use super::requesting::first_bytes;
use super::showing_items::{first, items_of};
use crate::hand::Hand;
use mailbox_bytes::MAILBOX_LEN;
use shm_region::Region;
use std::alloc::Global;
use target_side::Pending;
use tcmu_types::{BlockList, Bytes, Dump, Held, HeldList, NoMemory};
use user_lib::{Job, JobData, User};

/// The first bytes that a job carries, at most so many.
fn job_bytes(alloc: Global, job: &Job, count: u32) -> Result<Bytes, NoMemory>
    ensures { IfOk result (λ bytes. bytes.items ≡ take count (carried_bytes job.now.carried)) }
{
    match &job.carried {
        JobData::Moved(parts) => first_bytes(alloc, parts, count),
        JobData::Copied(bytes) => {
            Bytes::from_slice(alloc, first(bytes.as_slice(), count as usize))
        }
    }
}

/// The job of a command of a serial and an id, in hand or parked.
fn job_of<'a>(hand: &'a Hand, user: &'a User, id: u16, serial: u64) -> Option<&'a Job>
    ensures { option_copied result ≡ job_kept hand.now.items user.now.jobs id serial }
{
    match hand.job(serial) {
        Some(job) => Some(job),
        None => user.parked(id),
    }
}

/// The first bytes of a command's payload, at most so many: in its job, where it has one, and else along its blocks in the region.
fn payload_of(
    alloc: Global,
    region: &Region,
    job: Option<&Job>,
    blocks: &BlockList,
    count: u32,
) -> Result<Bytes, NoMemory>
    ensures { IfOk result (λ bytes. bytes.items ≡ bytes_kept region.now (option_copied job.entry) blocks.now.items count) }
{
    match job {
        Some(job) => job_bytes(alloc, job, count),
        None => {
            let mut bytes = Bytes::new(alloc);
            bytes.reserve(count as u64)?;
            region.read_blocks(blocks, count as usize, &mut bytes);
            Ok(bytes)
        }
    }
}

/// The serial of the command that holds this.
fn serial_of(held: &Held) -> u64
    ensures { result ≡ held.now.serial }
{
    held.serial
}

/// What the command of an id holds.
fn held_of(
    alloc: Global,
    region: &Region,
    hand: &Hand,
    user: &User,
    lengths: &[u32],
    id: u16,
    pending: &Pending,
) -> Result<Held, NoMemory>
    requires low { 1 ≤ pending.now.serial }
    requires high { pending.now.serial ≤ length lengths.now }
    ensures { IfOk result (λ held. (n : ℕ) → HasLength lengths.now pending.now.serial n → held ≡ held_read region.now hand.now.items user.now.jobs id pending.now n) }
{
    let count = lengths[(pending.serial - 1) as usize];
    let blocks = BlockList::from_slice(alloc, pending.blocks.as_slice())?;
    let job = job_of(hand, user, id, pending.serial);
    let payload = payload_of(alloc, region, job, &pending.blocks, count)?;
    Ok(Held {
        serial: pending.serial,
        blocks,
        payload,
    })
}

impl State {
    /// What the first unfinished command behind a serial holds, of those that do not wait for room.
    fn held_behind(
        &self,
        alloc: Global,
        lengths: &[u32],
        serial: u64,
    ) -> Result<Option<Held>, NoMemory>
        requires { HasLengths lengths.now self.now.state }
        ensures { IfOk result (λ o. o ≡ option_map (shown_command self.entry.now.lists) (first_of (λ u. nat_lt serial u.serial) self.entry.now.state.unfinished)) }
    {
        match self.target.after(serial) {
            Some(id) => match self.target.pending(id) {
                Some(pending) => {
                    let held = held_of(
                        alloc,
                        &self.region,
                        &self.hand,
                        &self.user,
                        lengths,
                        id,
                        pending,
                    )?;
                    Ok(Some(held))
                }
                None => unreachable!(),
            },
            None => Ok(None),
        }
    }

    /// What the unfinished commands hold that do not wait for room, in rising serial.
    fn held(&self, alloc: Global, lengths: &[u32]) -> Result<HeldList, NoMemory>
        requires { HasLengths lengths.now self.now.state }
        ensures { IfOk result (λ held. held.items ≡ (picture_of self.entry.now.state self.entry.now.lists).held) }
    {
        let mut held = HeldList::new(alloc);
        let mut serial = 0;
        for _ in 0..self.target.numbers().pending {
            match self.held_behind(alloc, lengths, serial)? {
                Some(next) => {
                    serial = serial_of(&next);
                    held.reserve(1)?;
                    held.push(next);
                }
                None => return Ok(held),
            }
        }
        Ok(held)
    }

    /// The device's picture. `lengths` has how many bytes each command sends or asks for, by serial from 1.
    pub(crate) fn dump(&self, alloc: Global, lengths: &[u32]) -> Result<Dump, NoMemory>
        requires { HasLengths lengths.now self.now.state }
        ensures { IfOk result (λ dump. dump ≡ picture_of self.entry.now.state self.entry.now.lists) }
    {
        let front = self.region.front();
        let mailbox = Bytes::from_slice(alloc, &front[..MAILBOX_LEN])?;
        let items = items_of(alloc, front, &self.target)?;
        let held = self.held(alloc, lengths)?;
        Ok(Dump {
            mailbox,
            items,
            held,
        })
    }
}
